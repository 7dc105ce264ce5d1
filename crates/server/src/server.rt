// The server: its calls, each with what it does and what it promises of every run.
//
// A restart is three passes, each taking the receipt of the one before; then the server serves. A station opens a job, fetches pages, sends a record of each
// change before the changed page, ships the page, and commits or aborts. A refusal names the first question that was answered no; all but a loss
// of power (and those inside a pass) leave everything as it was.
//
// Every call has two clauses beside those of its own: `does`, that its outcome is one of its plan, and `promised`, what it promises in whatever run it is made.
ghost use Rattle.std.specs.Prelude.{◌≡◌, ◌⊎◌, Some, None, cond, IfOk, IfErr, is_ok, true, length, drop};
ghost use Rattle.rules.specs.Ledger.{Ledger, is_in, content_of};
ghost use Rattle.rules.specs.Numbers.{number_of, hands_back};
ghost use Rattle.rules.specs.Plans.{Does};
ghost use Rattle.rules.specs.Restart.{whole, analysis_plan, redo_plan, undo_plan};
ghost use Rattle.rules.specs.Runs.{Reaches, Later, analysis, redo, undo, service, service_plan, opens, fetches, records, ships, writes_out, commits, aborts, looks, checkpoints};
ghost use Rattle.rules.specs.State.{World, out, found_in_memory, working};
ghost use Rattle.promises.specs.Compensations.{AllOnce};
ghost use Rattle.promises.specs.Promises.{BlankBegins, CheckpointsAgree, CutOrNot, PassesAccepted, Restarted, Unchanged};
ghost use Rattle.calls.specs.Memories.{is_at};
ghost use Rattle.server.specs.Promised.{Promised, Begun, Continued, Committed};
ghost use Rattle.server.specs.Answered.{numbers_of, handle_number, bytes_in, refusal_in, given_back, ended};

use crate::handles::{AnalysisReceipt, JobHandle, RedoReceipt};
use crate::not_ended::{NotEnded, or_handle};
use calls::{Stage, State};
use device::{LogStore, PageStore};
use format::{Change, Page};
use rules::{DirtyPage, JobEntry, Refusal};
use std::alloc::{AllocError, Global};
use std::marker::{Model, PhantomData};

#[derive(Drop)]
pub struct Server<P: PageStore, L: LogStore, K: Change> {
    state: State<P, L>,
    kind: PhantomData<K>,
}

// Calls led to this state from some devices. What all such states have in common (power, room, slots that fit) each call may rely on, over any devices.
impl<P: PageStore, L: LogStore, K: Change> Model for Server<P, L, K> {
    ghost use Rattle.rules.specs.State.{World};
    ghost use Rattle.promises.specs.AnyDevices.{ReachedFromAny};

    ghost Value = { World };

    ghost view = { λ s. s.state };

    ghost invariant = { λ s. ReachedFromAny K.Change.meaning s.state };
}

// Making a server, and the devices

impl<P: PageStore + Drop, L: LogStore + Drop, K: Change + Drop> Server<P, L, K> {
    // A server over two devices, which are not touched: it is out of service. Only here is memory wanted; where there is none the devices are dropped. Over blank devices of legal sizes a run begins,
    // and over those that a server of a run left, the run goes on.
    pub fn new(heap: Global, pages: P, log: L) -> Result<Server<P, L, K>, AllocError>
        ensures made { IfOk result (λ s. s ≡ record { devices = record { pages = P.PageStore.model pages; log = L.LogStore.model log }; memory = out }) }
        ensures begins { IfOk result (λ s. Begun K.Change.meaning s) }
        ensures continues { IfOk result (λ s. Continued K.Change.meaning s) }
        ensures blank { BlankBegins K.Change.meaning }
    {
        let state = State::new(heap, pages, log)?;
        Ok(Server {
            state,
            kind: PhantomData,
        })
    }
}

impl<P: PageStore, L: LogStore, K: Change + Drop> Server<P, L, K> {
    // Gives the devices back.
    pub fn into_devices(self) -> (P, L)
        ensures { record { pages = P.PageStore.model result.0; log = L.LogStore.model result.1 } ≡ self.devices }
    {
        self.state.into_devices()
    }
}

// The restart

impl<P: PageStore, L: LogStore, K: Change + Drop> Server<P, L, K> {
    // Powers the devices on, forgets what the server held, and finds from the log which jobs and pages there is work for, from the last complete checkpoint on. Answers where it
    // began to read, how many jobs were not ended, and how many pages may lack records.
    pub fn analysis(&mut self) -> Result<((u32, u32, u32), AnalysisReceipt), Refusal>
        ensures does { Does K.Change.meaning (analysis_plan K.Change.meaning self.old) self.old (numbers_of result) self.new }
        ensures promised { Promised K.Change.meaning analysis self.old (numbers_of result) self.new }
        ensures receipt { IfOk result (λ x. x.1.found ≡ x.0) }
        ensures accepted { (h : Ledger K) → Reaches K.Change.meaning h self.old → is_ok result ≡ true }
        ensures finishes { (h : Ledger K) → Reaches K.Change.meaning h self.old → PassesAccepted K.Change.meaning self.old }
    {
        let found = self.state.analysis::<K>()?;
        Ok((found, AnalysisReceipt { found }))
    }

    // Makes every copy the stored page, and plays on it what it lacks. Answers where it began to read, or 0, and how many records it played.
    pub fn redo(&mut self, _receipt: AnalysisReceipt) -> Result<((u32, u32), RedoReceipt), Refusal>
        ensures does { Does K.Change.meaning (redo_plan K.Change.meaning self.old) self.old (numbers_of result) self.new }
        ensures promised { Promised K.Change.meaning redo self.old (numbers_of result) self.new }
        ensures receipt { IfOk result (λ x. x.1.played ≡ x.0) }
        ensures accepted { (h : Ledger K) → Reaches K.Change.meaning h self.old → IfErr result (λ why. number_of why ≡ 2) }
    {
        let played = self.state.redo::<K>()?;
        Ok((played, RedoReceipt { played }))
    }

    // Takes the changes of the losers back and ends them. Answers how many compensations and ends it appended. Then the server serves.
    pub fn undo(&mut self, _receipt: RedoReceipt) -> Result<(u32, u32), Refusal>
        ensures does { Does K.Change.meaning (undo_plan K.Change.meaning self.old) self.old result self.new }
        ensures promised { Promised K.Change.meaning undo self.old result self.new }
        ensures accepted { (h : Ledger K) → Reaches K.Change.meaning h self.old → IfErr result (λ why. (number_of why ≡ 2) ⊎ (number_of why ≡ 17)) }
        ensures undone { (h : Ledger K) → Reaches K.Change.meaning h self.old → IfOk result (λ a. AllOnce (λ j. is_in j h.kept) (whole K.Change.meaning self.new.devices)) }
        ensures again { (h : Ledger K) (w : World) → Reaches K.Change.meaning h self.old → IfOk result (λ a. Restarted K.Change.meaning self.new w → Unchanged K.Change.meaning self.new w) }
        ensures checkpoints { CheckpointsAgree K.Change.meaning }
        ensures cut { CutOrNot K.Change.meaning }
    {
        self.state.undo::<K>()
    }
}

// Service

impl<P: PageStore, L: LogStore, K: Change + Drop> Server<P, L, K> {
    // Opens a job.
    pub fn open(&mut self) -> Result<JobHandle, Refusal>
        ensures does { Does K.Change.meaning (service_plan K.Change.meaning opens self.old) self.old (handle_number result) self.new }
        ensures promised { Promised K.Change.meaning (service opens) self.old (handle_number result) self.new }
    {
        let number = self.state.open::<K>()?;
        Ok(JobHandle { number })
    }

    // Holds the page for the job, and copies it to the buffer, of 256 bytes.
    pub fn fetch(&mut self, job: &JobHandle, page: u32, buffer: &mut [u8]) -> Result<(), Refusal>
        ensures does { Does K.Change.meaning (service_plan K.Change.meaning (fetches job.now.number page (length buffer.old)) self.old) self.old (bytes_in result buffer.new) self.new }
        ensures promised { Promised K.Change.meaning (service (fetches job.now.number page (length buffer.old))) self.old (bytes_in result buffer.new) self.new }
        ensures kept { IfErr result (λ why. buffer.new ≡ buffer.old) }
    {
        let bytes = self.state.fetch::<K>(job.number, page, buffer.len())?;
        fill(buffer, &bytes);
        Ok(())
    }

    // Appends a change of a page that the job holds; 40 bytes form one. Its LRC is one above the page's last. The server's copy does not move.
    pub fn record(
        &mut self,
        job: &JobHandle,
        page: u32,
        lrc: u32,
        change: &[u8],
    ) -> Result<(), Refusal>
        ensures does { Does K.Change.meaning (service_plan K.Change.meaning (records job.now.number page lrc change.now) self.old) self.old result self.new }
        ensures promised { Promised K.Change.meaning (service (records job.now.number page lrc change.now)) self.old result self.new }
    {
        self.state.record::<K>(job.number, page, lrc, change)
    }

    // Makes the image, of 256 bytes, the server's copy, if the records give it.
    pub fn ship(&mut self, job: &JobHandle, page: u32, image: &[u8]) -> Result<(), Refusal>
        ensures does { Does K.Change.meaning (service_plan K.Change.meaning (ships job.now.number page image.now) self.old) self.old result self.new }
        ensures promised { Promised K.Change.meaning (service (ships job.now.number page image.now)) self.old result self.new }
    {
        self.state.ship::<K>(job.number, page, image)
    }

    // Forces the log, then writes the copy, complete or not, to the store.
    pub fn write_out(&mut self, page: u32) -> Result<(), Refusal>
        ensures does { Does K.Change.meaning (service_plan K.Change.meaning (writes_out page) self.old) self.old result self.new }
        ensures promised { Promised K.Change.meaning (service (writes_out page)) self.old result self.new }
    {
        self.state.write_out::<K>(page)
    }

    // Makes the job's changes last, and ends it. Answers the slot of the commit, which stands from now on in every run.
    pub fn commit(&mut self, job: JobHandle) -> Result<u32, NotEnded>
        ensures does { Does K.Change.meaning (service_plan K.Change.meaning (commits job.number) self.old) self.old (ended result) self.new }
        ensures promised { Promised K.Change.meaning (service (commits job.number)) self.old (ended result) self.new }
        ensures handle { IfErr result (λ e. given_back e ≡ cond (hands_back (refusal_in e)) (Some job) None) }
        ensures stands { (h : Ledger K) (w : World) → Reaches K.Change.meaning h self.old → IfOk result (λ slot. Later K.Change.meaning self.new w → Committed K.Change.meaning w job.number slot) }
    {
        let answer = self.state.commit::<K>(job.number);
        or_handle(answer, job)
    }

    // Takes the job's changes back, and ends it.
    pub fn abort(&mut self, job: JobHandle) -> Result<(), NotEnded>
        ensures does { Does K.Change.meaning (service_plan K.Change.meaning (aborts job.number) self.old) self.old (ended result) self.new }
        ensures promised { Promised K.Change.meaning (service (aborts job.number)) self.old (ended result) self.new }
        ensures handle { IfErr result (λ e. given_back e ≡ cond (hands_back (refusal_in e)) (Some job) None) }
    {
        let answer = self.state.abort::<K>(job.number);
        or_handle(answer, job)
    }

    // Copies a page that no job holds to the buffer, of 256 bytes.
    pub fn look(&mut self, page: u32, buffer: &mut [u8]) -> Result<(), Refusal>
        ensures does { Does K.Change.meaning (service_plan K.Change.meaning (looks page (length buffer.old)) self.old) self.old (bytes_in result buffer.new) self.new }
        ensures promised { Promised K.Change.meaning (service (looks page (length buffer.old))) self.old (bytes_in result buffer.new) self.new }
        ensures kept { IfErr result (λ why. buffer.new ≡ buffer.old) }
        ensures look { (h : Ledger K) → Reaches K.Change.meaning h self.old → IfOk result (λ u. drop 4 buffer.new ≡ content_of K.Change.meaning h page) }
    {
        let bytes = self.state.look::<K>(page, buffer.len())?;
        fill(buffer, &bytes);
        Ok(())
    }

    // Writes the server's tables into the log, so that a restart need not read all of it. Answers the last slot of the checkpoint.
    pub fn checkpoint(&mut self) -> Result<u32, Refusal>
        ensures does { Does K.Change.meaning (service_plan K.Change.meaning checkpoints self.old) self.old result self.new }
        ensures promised { Promised K.Change.meaning (service checkpoints) self.old result self.new }
    {
        self.state.checkpoint::<K>()
    }
}

// Views for tools

impl<P: PageStore, L: LogStore, K: Change> Server<P, L, K> {
    pub fn stage(&self) -> Stage
        ensures { is_at result self.now.memory ≡ true }
    {
        self.state.stage()
    }

    // The copies of all pages, once redo has made them.
    pub fn copies(&self) -> &[Page]
        ensures { result.now ≡ (working self.now.memory).copies }
    {
        self.state.copies()
    }

    // The open jobs, ascending, with their nexts and the pages that they hold.
    pub fn jobs(&self) -> &[JobEntry]
        ensures { result.now ≡ (working self.now.memory).jobs }
    {
        self.state.jobs()
    }

    // The pages that may lack records, as analysis found them.
    pub fn dirty_pages(&self) -> &[DirtyPage]
        ensures { result.now ≡ (found_in_memory self.now.memory).dirty }
    {
        self.state.dirty_pages()
    }

    // The first slot read whole by the last restart.
    pub fn first_slot(&self) -> u32
        ensures { result ≡ (found_in_memory self.now.memory).first }
    {
        self.state.first_slot()
    }

    pub fn pages(&self) -> &P
        ensures { P.PageStore.model result.now ≡ self.now.devices.pages }
    {
        self.state.pages()
    }

    pub fn log(&self) -> &L
        ensures { L.LogStore.model result.now ≡ self.now.devices.log }
    {
        self.state.log()
    }
}

fn fill(buffer: &mut [u8], bytes: &[u8; 256])
    requires { length buffer.old ≡ 256 }
    ensures { buffer.new ≡ bytes.now }
{
    buffer.copy_from_slice(bytes);
}
