// Taking changes back, as abort and undo do: from a job's next down its chain of links.
ghost use Rattle.std.specs.Prelude.{◌≡◌, ◌≤◌, ◌<◌, true, List, ◌∷◌, IfOk, slice_set};
ghost use Rattle.format.specs.declared.page.Page.{Page};
ghost use Rattle.format.specs.declared.slot.Slot.TheVariants.{Record};
ghost use Rattle.recovery_log.specs.Log.{Log};
ghost use Rattle.rules.specs.Plans.{append};
ghost use Rattle.rules.specs.Playing.{play};
ghost use Rattle.rules.specs.Reading.{known, at};
ghost use Rattle.rules.specs.Service.{copy_of, compensation, change_of};
ghost use Rattle.rules.specs.State.{size, slots, log_length};
ghost use Rattle.calls.specs.TakingBack.{OutcomeOfAppends, brought_up, job_taken_back};
ghost use Rattle.calls.specs.Readers.{read_up_to};
ghost use Rattle.calls.specs.Outcomes.{Outcome};

use crate::copies::{compensation, copy_of, play, set_copy};
use crate::devices::Devices;
use device::{LogStore, PageStore};
use format::{Action, Change, Page, PageRecord, Slot};
use rules::Refusal;

impl<P: PageStore, L: LogStore> Devices<P, L> {
    // Plays on the copies of the held pages what they lack of the records from slot `first` on.
    pub(crate) fn bring_up<K: Change + Drop>(
        &self,
        first: u32,
        holds: &[bool; 64],
        copies: &mut [Page],
    )
        requires { (self.now.log.powered ≡ true) × (0 < first) }
        ensures { copies.new ≡ brought_up K.Change.meaning holds.now (known K.Change.meaning (size self.now) first (slots self.now)) copies.old }
    {
        for number in first..=self.log_length() {
            play_held(self.slot::<K>(number), holds, copies);
        }
    }

    // The change in slot `number`, if it is one of the job among the slots from `first` to `last`.
    pub(crate) fn change<K: Change + Drop>(
        &self,
        job: u32,
        number: u32,
        first: u32,
        last: u32,
    ) -> Option<PageRecord<K>>
        requires { (self.now.log.powered ≡ true) × (0 < first) × (last ≤ log_length self.now) }
        ensures { result ≡ change_of job (at (read_up_to K.Change.meaning self.now first last) number) }
    {
        change_of(job, self.slot_among(number, first, last))
    }

    fn slot_among<K: Change + Drop>(&self, number: u32, first: u32, last: u32) -> Option<Slot<K>>
        requires { (self.now.log.powered ≡ true) × (0 < first) × (last ≤ log_length self.now) }
        ensures { result ≡ at (read_up_to K.Change.meaning self.now first last) number }
    {
        if number < first || last < number {
            return None;
        }
        self.slot(number)
    }

    // Appends the compensation of a change, and plays it on the copy.
    pub(crate) fn take_back<K: Change + Drop>(
        &mut self,
        change: PageRecord<K>,
        copies: &mut [Page],
    ) -> Result<(), Refusal>
        ensures appended { Outcome K.Change.meaning (append (Record (compensation change (copy_of copies.old change.page)))) self.old result self.new }
        ensures played { IfOk result (λ u. copies.new ≡ slice_set copies.old change.page (play K.Change.meaning (compensation change (copy_of copies.old change.page)) (copy_of copies.old change.page))) }
    {
        let page = u32::from(change.page);
        let mut copy = copy_of(copies, page);
        let compensation = compensation(change, &copy);
        play(&compensation, &mut copy);
        self.append(&Slot::Record(compensation))?;
        set_copy(copies, page, copy);
        Ok(())
    }

    // Takes the changes of a job back from that in slot `newest` on, down its chain of links. None of them is among the slots that are appended meanwhile.
    pub(crate) fn take_all_back<K: Change + Drop>(
        &mut self,
        job: u32,
        newest: u32,
        first: u32,
        copies: &mut [Page],
    ) -> Result<(), Refusal>
        requires { (self.old.log.powered ≡ true) × (0 < first) }
        ensures went { let e = job_taken_back K.Change.meaning self.old job newest first copies.old in OutcomeOfAppends K.Change.meaning e.work.appended e.why self.old result self.new }
        ensures played { IfOk result (λ u. copies.new ≡ (job_taken_back K.Change.meaning self.old job newest first copies.old).work.copies) }
    {
        let last = self.log_length();
        let mut number = newest;
        while number != 0 {
            let change = self
                .change::<K>(job, number, first, last)
                .ok_or(Refusal::LogUnreadable)?;
            number = change.link;
            self.take_back(change, copies)?;
        }
        Ok(())
    }
}

// Plays what is in the slot on the copy of its page, if the page is held.
fn play_held<K: Change + Drop>(slot: Option<Slot<K>>, holds: &[bool; 64], copies: &mut [Page])
    ensures { (L : Log K) (before : List Page) → copies.old ≡ brought_up K.Change.meaning holds.now L before → copies.new ≡ brought_up K.Change.meaning holds.now (slot ∷ L) before }
{
    let Some(Slot::Record(found)) = slot else {
        return;
    };
    let page = u32::from(found.page);
    if holds.get(page as usize).copied().unwrap_or(false) {
        let mut copy = copy_of(copies, page);
        play(&found, &mut copy);
        set_copy(copies, page, copy);
    }
}

// What is in the slot, if it is a change of the job.
fn change_of<K: Change + Drop>(job: u32, slot: Option<Slot<K>>) -> Option<PageRecord<K>>
    ensures { result ≡ change_of job slot }
{
    match slot {
        Some(
            Slot::Record(
                found @ PageRecord {
                    action: Action::Put,
                    ..
                },
            ),
        ) if found.job == job => Some(found),
        _ => None,
    }
}
