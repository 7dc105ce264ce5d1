// Prints the state of a server: its stage, its devices, and in service what it holds.
use crate::printer::hex_text::HexText;
use crate::runner::ScriptedServer;
use format::all_zero;
use scripted_log::ScriptedLog;
use scripted_pages::ScriptedPages;
use server::{Change, JobEntry, LogStore, Page, PageStore, Stage};
use std::io;
use std::io::Write;

pub(crate) fn print_state<K: Change, W: Write>(
    out: &mut W,
    server: &ScriptedServer<K>,
) -> io::Result<()> {
    let stage = server.stage();
    writeln!(out, "stage {}", stage_word(stage))?;
    print_log(out, server.log())?;
    print_pages(out, server.pages())?;
    if stage == Stage::Serving {
        print_copies(out, server.copies())?;
        print_holds(out, server.jobs())?;
        print_jobs(out, server.jobs())?;
    }
    Ok(())
}

fn stage_word(stage: Stage) -> &'static str {
    match stage {
        Stage::OutOfService => "out",
        Stage::Analysed => "analysed",
        Stage::Redone => "redone",
        Stage::Serving => "serving",
    }
}

fn power_word(powered: bool) -> &'static str {
    if powered { "lit" } else { "dark" }
}

fn print_log<W: Write>(out: &mut W, log: &ScriptedLog) -> io::Result<()> {
    let slots = log.slots();
    let forced = log.forced();
    let power = power_word(log.is_powered());
    writeln!(out, "L {slots} forced {forced} {power}")?;
    for number in 1..=slots {
        if let Some(slot) = log.slot(number) {
            writeln!(out, "slot {number} {}", HexText(slot))?;
        }
    }
    Ok(())
}

fn print_pages<W: Write>(out: &mut W, pages: &ScriptedPages) -> io::Result<()> {
    writeln!(out, "store {}", power_word(pages.is_powered()))?;
    for number in 0..pages.size() {
        if let Some(page) = pages.page(number) {
            print_page(out, "page", number as usize, page)?;
        }
    }
    Ok(())
}

fn print_copies<W: Write>(out: &mut W, copies: &[Page]) -> io::Result<()> {
    for (number, copy) in copies.iter().enumerate() {
        print_page(out, "copy", number, &copy.to_bytes())?;
    }
    Ok(())
}

// Blank pages are left out.
fn print_page<W: Write>(
    out: &mut W,
    what: &str,
    number: usize,
    bytes: &[u8; 256],
) -> io::Result<()> {
    if all_zero(bytes) {
        return Ok(());
    }
    writeln!(out, "{what} {number} {}", HexText(bytes))
}

fn print_holds<W: Write>(out: &mut W, jobs: &[JobEntry]) -> io::Result<()> {
    for page in 0..64 {
        for entry in jobs.iter().filter(|entry| entry.holds[page]) {
            writeln!(out, "hold {page} {}", entry.job)?;
        }
    }
    Ok(())
}

fn print_jobs<W: Write>(out: &mut W, jobs: &[JobEntry]) -> io::Result<()> {
    for entry in jobs {
        writeln!(out, "job {} {}", entry.job, entry.next)?;
    }
    Ok(())
}
