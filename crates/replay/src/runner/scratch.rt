// Receipts out of turn: a server of its own over small blank devices gives them.
use crate::bad_line::BadLine;
use crate::runner::{ScriptedServer, blank_server};
use script::Script;
use server::{AnalysisReceipt, Change, RedoReceipt};
use std::alloc::{AllocError, Global};

pub(crate) fn analysis_receipt<K: Change + Drop>(heap: Global) -> Result<AnalysisReceipt, BadLine> {
    let mut server = scratch_server::<K>(heap)?;
    let (_, receipt) = server.analysis().map_err(BadLine::NoReceipt)?;
    Ok(receipt)
}

pub(crate) fn redo_receipt<K: Change + Drop>(heap: Global) -> Result<RedoReceipt, BadLine> {
    let mut server = scratch_server::<K>(heap)?;
    let (_, receipt) = server.analysis().map_err(BadLine::NoReceipt)?;
    let (_, receipt) = server.redo(receipt).map_err(BadLine::NoReceipt)?;
    Ok(receipt)
}

fn scratch_server<K: Change + Drop>(heap: Global) -> Result<ScriptedServer<K>, AllocError> {
    blank_server(heap, 1, 8, &Script::new(heap)?)
}
