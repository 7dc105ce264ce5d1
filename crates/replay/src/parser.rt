// Reads a line: a command with its arguments, and behind a call its outcomes.
use crate::bad_line::{Argument, BadLine};
use crate::command::{Call, Command, Edit, ServiceCall, Store};
use device::{MOST_PAGES, MOST_SLOTS};
use server::Device;
use std::alloc::Global;

mod outcomes;
#[cfg(test)]
mod tests;
mod words;

use outcomes::plan;
use words::Words;

// None: the line is blank or a comment.
pub(crate) fn parse(heap: Global, line: &str) -> Result<Option<Command>, BadLine> {
    if line.trim().is_empty() || line.starts_with('#') {
        return Ok(None);
    }
    let (asked, outcomes) = match line.split_once(';') {
        Some((asked, outcomes)) => (asked, Some(outcomes)),
        None => (line, None),
    };
    let mut words = Words::new(asked);
    let command = match words.word().unwrap_or("") {
        "store" => Command::Store(store(&mut words)?),
        "dump" => Command::Dump,
        "pokepage" => Command::Edit(Edit::SetPage(
            words.number(Argument::Page)?,
            words.exactly(Argument::PageBytes)?,
        )),
        "pokeslot" => Command::Edit(Edit::SetSlot(
            words.number(Argument::Slot)?,
            words.exactly(Argument::SlotBytes)?,
        )),
        "pokeappend" => Command::Edit(Edit::PutSlot(words.exactly(Argument::SlotBytes)?)),
        "dark" => Command::Edit(Edit::CutPower(device(&mut words)?)),
        name => Command::Call(call(heap, name, &mut words)?, plan(outcomes)?),
    };
    words.finish()?;
    if outcomes.is_some() && !matches!(&command, Command::Call(_, _)) {
        return Err(BadLine::NotACall);
    }
    Ok(Some(command))
}

fn call(heap: Global, name: &str, words: &mut Words) -> Result<Call, BadLine> {
    Ok(match name {
        "analysis" => Call::Analysis,
        "redo" => Call::Redo,
        "undo" => Call::Undo,
        _ => Call::Service(service_call(heap, name, words)?),
    })
}

fn service_call(heap: Global, name: &str, words: &mut Words) -> Result<ServiceCall, BadLine> {
    Ok(match name {
        "open" => ServiceCall::Open,
        "fetch" => ServiceCall::Fetch {
            job: words.number(Argument::Job)?,
            page: words.number(Argument::Page)?,
            buffer: words.buffer(heap)?,
        },
        "record" => ServiceCall::Record {
            job: words.number(Argument::Job)?,
            page: words.number(Argument::Page)?,
            lrc: words.number(Argument::Lrc)?,
            change: words.bytes(heap)?,
        },
        "ship" => ServiceCall::Ship {
            job: words.number(Argument::Job)?,
            page: words.number(Argument::Page)?,
            image: words.bytes(heap)?,
        },
        "write" => ServiceCall::WriteOut {
            page: words.number(Argument::Page)?,
        },
        "commit" => ServiceCall::Commit {
            job: words.number(Argument::Job)?,
        },
        "abort" => ServiceCall::Abort {
            job: words.number(Argument::Job)?,
        },
        "look" => ServiceCall::Look {
            page: words.number(Argument::Page)?,
            buffer: words.buffer(heap)?,
        },
        "checkpoint" => ServiceCall::Checkpoint,
        _ => return Err(BadLine::Expected(Argument::Command)),
    })
}

fn store(words: &mut Words) -> Result<Store, BadLine> {
    Ok(Store {
        pages: words
            .setting("pages=")
            .filter(|pages| *pages <= MOST_PAGES)
            .ok_or(BadLine::Expected(Argument::Pages))?,
        slots: words
            .setting("slots=")
            .filter(|slots| *slots <= MOST_SLOTS)
            .ok_or(BadLine::Expected(Argument::Slots))?,
        kind: words
            .setting("kind=")
            .ok_or(BadLine::Expected(Argument::Kind))?,
    })
}

fn device(words: &mut Words) -> Result<Device, BadLine> {
    match words.word() {
        Some("pages") => Ok(Device::Pages),
        Some("log") => Ok(Device::Log),
        _ => Err(BadLine::Expected(Argument::Device)),
    }
}
