// Questions to the log: a reader is shown the slots from the first one read whole on, and then knows its answer.
ghost use Rattle.std.specs.Prelude.{◌≡◌, ◌≤◌, ◌<◌, ℕ, true, Some, None, [], ◌∷◌};
ghost use Rattle.recovery_log.specs.Log.{Log, new_number};
ghost use Rattle.rules.specs.Reading.{known};
ghost use Rattle.rules.specs.Service.{log_read};
ghost use Rattle.rules.specs.State.{size, slots, log_length, working};
ghost use Rattle.calls.specs.Outcomes.{Ready};
ghost use Rattle.calls.specs.Readers.{slot_of};

use crate::devices::Devices;
use crate::state::State;
use device::{LogStore, PageStore};
use format::{Change, Slot};

pub(crate) trait Reader<K: Change> {
    // What a reader that was `start` holds once it has read that log.
    ghost says: { Self → Self → Log K → Type 0 };

    fn note(&mut self, number: u32, slot: &Slot<K>)
        ensures { (start : Self) (L : Log K) → new_number L ≡ number → says start self.old L → says start self.new (Some slot.now ∷ L) };

    // A slot that does not fit, or is not read, says nothing.
    ghost unread: { (start s : Self) (L : Log K) → says start s L → says start s (None ∷ L) };
}

impl<P: PageStore, L: LogStore> Devices<P, L> {
    // Shows a reader the slots from `first` on.
    pub(crate) fn read_from<K: Change + Drop, R: Reader<K>>(&self, first: u32, reader: &mut R)
        requires { (self.now.log.powered ≡ true) × (0 < first) }
        ensures { R.Reader.says reader.old reader.old [] → R.Reader.says reader.old reader.new (known K.Change.meaning (size self.now) first (slots self.now)) }
    {
        for number in first..=self.log_length() {
            self.show(number, reader);
        }
    }

    fn show<K: Change + Drop, R: Reader<K>>(&self, number: u32, reader: &mut R)
        requires { (self.now.log.powered ≡ true) × (0 < number) × (number ≤ log_length self.now) }
        ensures { (start : R) (L : Log K) → new_number L ≡ number → R.Reader.says start reader.old L → R.Reader.says start reader.new (slot_of K.Change.meaning self.now number ∷ L) }
    {
        if let Some(slot) = self.slot(number) {
            reader.note(number, &slot);
        }
    }
}

impl<P: PageStore, L: LogStore> State<P, L> {
    // Shows a reader the log that the server goes by in service.
    pub(crate) fn read_log<K: Change + Drop, R: Reader<K>>(&self, reader: &mut R)
        requires { Ready K.Change.meaning self.now }
        ensures { R.Reader.says reader.old reader.old [] → R.Reader.says reader.old reader.new (log_read K.Change.meaning self.now.devices (working self.now.memory)) }
    {
        self.devices.read_from(self.first, reader);
    }
}
