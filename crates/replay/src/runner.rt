// One server over scripted devices: makes its calls, and edits its devices from outside.
use crate::bad_line::BadLine;
use crate::command::{Call, Edit, ServiceCall};
use script::{PowerPlan, Script};
use scripted_log::ScriptedLog;
use scripted_pages::ScriptedPages;
use server::{AnalysisReceipt, Change, JobHandle, RedoReceipt, Refusal, Server};
use std::alloc::{AllocError, Global};

mod edits;
mod scratch;

pub type ScriptedServer<K> = Server<ScriptedPages, ScriptedLog, K>;

// What an accepted call answers.
#[derive(Drop)]
pub enum Answer {
    Done,
    // Of open, the job's number; of commit and checkpoint, their last slot.
    Slot(u32),
    Analysis(u32, u32, u32),
    // Of redo and undo.
    Pass(u32, u32),
    // Of fetch and look, the buffer.
    Bytes(Vec<u8>),
}

#[derive(Drop)]
pub struct Runner<K: Change> {
    heap: Global,
    server: ScriptedServer<K>,
    // Both devices follow it.
    script: Script,
    // The receipts that the last passes gave.
    analysed: Option<AnalysisReceipt>,
    redone: Option<RedoReceipt>,
}

impl<K: Change + Drop> Runner<K> {
    pub(crate) fn new(heap: Global, pages: u32, slots: u32) -> Result<Runner<K>, AllocError> {
        let script = Script::new(heap)?;
        Ok(Runner {
            heap,
            server: blank_server(heap, pages, slots, &script)?,
            script,
            analysed: None,
            redone: None,
        })
    }

    pub(crate) fn server(&self) -> &ScriptedServer<K> {
        &self.server
    }

    // The call's answer, unless there was no receipt to be had for a pass out of turn.
    pub(crate) fn call(
        &mut self,
        call: Call,
        plan: PowerPlan,
    ) -> Result<Result<Answer, Refusal>, BadLine> {
        self.script.set(plan);
        match call {
            Call::Analysis => Ok(self.analysis()),
            Call::Redo => {
                let receipt = self.analysis_receipt()?;
                Ok(self.redo(receipt))
            }
            Call::Undo => {
                let receipt = self.redo_receipt()?;
                Ok(self.undo(receipt))
            }
            Call::Service(call) => Ok(self.serve(call)),
        }
    }

    // May this edit be made?
    pub(crate) fn check(&self, edit: &Edit) -> Result<(), BadLine> {
        edits::check(edit, self.server.pages(), self.server.log())
    }

    // The process ends, its devices are edited, and a server is made again over them.
    pub(crate) fn edited(self, edit: &Edit) -> Result<Runner<K>, BadLine> {
        let Runner {
            heap,
            server,
            script,
            analysed,
            redone,
        } = self;
        let (mut pages, mut log) = server.into_devices();
        edits::make(edit, &mut pages, &mut log)?;
        Ok(Runner {
            heap,
            server: Server::new(heap, pages, log)?,
            script,
            analysed,
            redone,
        })
    }
}

// Passes. A script may make one out of turn: then its receipt is that of a scratch server.

impl<K: Change + Drop> Runner<K> {
    fn analysis(&mut self) -> Result<Answer, Refusal> {
        let ((begin, losers, dirty_pages), receipt) = self.server.analysis()?;
        self.analysed = Some(receipt);
        Ok(Answer::Analysis(begin, losers, dirty_pages))
    }

    fn analysis_receipt(&mut self) -> Result<AnalysisReceipt, BadLine> {
        match self.analysed.take() {
            Some(receipt) => Ok(receipt),
            None => scratch::analysis_receipt::<K>(self.heap),
        }
    }

    fn redo(&mut self, receipt: AnalysisReceipt) -> Result<Answer, Refusal> {
        let ((start, played), receipt) = self.server.redo(receipt)?;
        self.redone = Some(receipt);
        Ok(Answer::Pass(start, played))
    }

    fn redo_receipt(&mut self) -> Result<RedoReceipt, BadLine> {
        match self.redone.take() {
            Some(receipt) => Ok(receipt),
            None => scratch::redo_receipt::<K>(self.heap),
        }
    }

    fn undo(&mut self, receipt: RedoReceipt) -> Result<Answer, Refusal> {
        let (compensations, ends) = self.server.undo(receipt)?;
        Ok(Answer::Pass(compensations, ends))
    }
}

// Service. A job's handle is made from its number, so that it is at hand also after it was spent.

impl<K: Change + Drop> Runner<K> {
    fn serve(&mut self, call: ServiceCall) -> Result<Answer, Refusal> {
        let server = &mut self.server;
        match call {
            ServiceCall::Open => server.open().map(|job| Answer::Slot(job.number())),
            ServiceCall::Fetch {
                job,
                page,
                mut buffer,
            } => server
                .fetch(&JobHandle::from_number(job), page, buffer.as_mut_slice())
                .map(|()| Answer::Bytes(buffer)),
            ServiceCall::Record {
                job,
                page,
                lrc,
                change,
            } => server
                .record(&JobHandle::from_number(job), page, lrc, change.as_slice())
                .map(|()| Answer::Done),
            ServiceCall::Ship { job, page, image } => server
                .ship(&JobHandle::from_number(job), page, image.as_slice())
                .map(|()| Answer::Done),
            ServiceCall::WriteOut { page } => server.write_out(page).map(|()| Answer::Done),
            ServiceCall::Commit { job } => server
                .commit(JobHandle::from_number(job))
                .map(Answer::Slot)
                .map_err(|why| why.refusal()),
            ServiceCall::Abort { job } => server
                .abort(JobHandle::from_number(job))
                .map(|()| Answer::Done)
                .map_err(|why| why.refusal()),
            ServiceCall::Look { page, mut buffer } => server
                .look(page, buffer.as_mut_slice())
                .map(|()| Answer::Bytes(buffer)),
            ServiceCall::Checkpoint => server.checkpoint().map(Answer::Slot),
        }
    }
}

fn blank_server<K: Change + Drop>(
    heap: Global,
    pages: u32,
    slots: u32,
    script: &Script,
) -> Result<ScriptedServer<K>, AllocError> {
    let pages = ScriptedPages::new(heap, pages, script.clone()?)?;
    let log = ScriptedLog::new(heap, slots, script.clone()?)?;
    Server::new(heap, pages, log)
}
