// One run of the script over any devices: the calls, and the ledger that is told of them.
use crate::failure::Failure;
use crate::kind::Drilled;
use crate::ledger::Ledger;
use crate::outcome::{Look, Outcome};
use crate::step::{Step, Steps, Stopped};
use device::{LogStore, PageStore};
use format::Page;
use server::{AnalysisReceipt, JobHandle, RedoReceipt, Refusal, Server};
use std::alloc::{AllocError, Global};

mod server_calls;

#[derive(Drop)]
pub struct Run<P: PageStore, L: LogStore, K: Drilled> {
    heap: Global,
    server: Server<P, L, K>,
    receipts: Receipts,
    station: Station,
    ledger: Ledger<K>,
    outcome: Outcome,
}

// Of the last restart.
#[derive(Drop)]
struct Receipts {
    analysis: Option<AnalysisReceipt>,
    redo: Option<RedoReceipt>,
}

// What a station has: the job that it opened last, and the page that it read last, with the changes that it sent since.
#[derive(Drop)]
struct Station {
    handle: Option<JobHandle>,
    job: u32,
    page: Page,
}

impl<P: PageStore + Drop, L: LogStore + Drop, K: Drilled> Run<P, L, K> {
    pub(crate) fn new(heap: Global, pages: P, log: L) -> Result<Run<P, L, K>, AllocError> {
        Run::over(heap, pages, log, Ledger::new(heap))
    }

    // A server just made: it and the station remember nothing, and the ledger everything.
    fn over(heap: Global, pages: P, log: L, ledger: Ledger<K>) -> Result<Run<P, L, K>, AllocError> {
        Ok(Run {
            heap,
            server: Server::new(heap, pages, log)?,
            receipts: Receipts {
                analysis: None,
                redo: None,
            },
            station: Station {
                handle: None,
                job: 0,
                page: Page::blank(),
            },
            ledger,
            outcome: Outcome::new(heap),
        })
    }

    // The whole script: where power is not lost in the work, it is lost after it.
    pub(crate) fn whole(mut self, steps: &Steps) -> Result<Run<P, L, K>, Failure> {
        self.make_calls(&steps.work)?;
        if self.outcome.stopped.is_some() {
            return Ok(self);
        }
        self.recover(steps)
    }

    // Power is lost, and with it all that was in memory: a server is made again over the devices, restarts, and every page is looked at.
    pub(crate) fn recover(self, steps: &Steps) -> Result<Run<P, L, K>, Failure> {
        let Run {
            heap,
            server,
            receipts: _,
            station: _,
            ledger,
            outcome: _,
        } = self;
        let (pages, log) = server.into_devices();
        let mut run = Run::over(heap, pages, log, ledger)?;
        run.make_calls(&steps.recovery)?;
        Ok(run)
    }

    pub(crate) fn stopped(&self) -> Option<Stopped> {
        self.outcome.stopped
    }

    pub(crate) fn log(&self) -> &L {
        self.server.log()
    }

    pub(crate) fn into_outcome(self) -> Outcome {
        self.outcome
    }

    // The first call that is refused ends them.
    fn make_calls(&mut self, steps: &[Step]) -> Result<(), Failure> {
        for step in steps {
            let answer = self.call(*step);
            self.note(*step, &answer)?;
            if let Err(refusal) = answer {
                self.outcome.stopped = Some(Stopped {
                    step: *step,
                    refusal,
                });
                return Ok(());
            }
        }
        Ok(())
    }

    // The ledger is told the call and its answer, and nothing that the server says of pages; what a look gives is kept beside what the ledger says.
    fn note(&mut self, step: Step, answer: &Result<(), Refusal>) -> Result<(), Failure> {
        let job = self.station.job;
        match (step, answer) {
            (Step::Record { page, change }, Ok(())) => {
                self.ledger.enter(job, page, K::sample(change))?
            }
            (Step::Commit, Ok(())) => self.ledger.keep(job)?,
            (Step::Commit, Err(Refusal::PowerLost(_, _))) => self.ledger.doubt(job)?,
            (Step::Analysis, _) => self.ledger.settle(self.server.log())?,
            (Step::Look { page }, Ok(())) => self.outcome.looks.push(Look {
                page,
                seen: self.station.page.content,
                right: self.ledger.content(page),
            })?,
            _ => {}
        }
        Ok(())
    }

    fn call(&mut self, step: Step) -> Result<(), Refusal> {
        match step {
            Step::Analysis => self.analysis(),
            Step::Redo => self.redo(),
            Step::Undo => self.undo(),
            Step::Open => self.open(),
            Step::Fetch { page } => self.fetch(page),
            Step::Record { page, change } => self.record(page, &K::sample(change)),
            Step::Checkpoint => self.server.checkpoint().map(|_| ()),
            Step::Ship { page } => self.ship(page),
            Step::Commit => self.commit(),
            Step::WriteOut { page } => self.server.write_out(page),
            Step::Look { page } => self.look(page),
        }
    }
}
