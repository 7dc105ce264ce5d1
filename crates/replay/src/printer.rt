// Prints answers and states in the words of a script.
use crate::runner::Answer;
use server::{Device, Refusal};
use std::io;
use std::io::Write;

mod hex_text;
mod state;

use hex_text::HexText;
pub(crate) use state::print_state;

pub(crate) fn print_answer<W: Write>(
    out: &mut W,
    answer: &Result<Answer, Refusal>,
) -> io::Result<()> {
    match answer {
        Ok(Answer::Done) => writeln!(out, "ok"),
        Ok(Answer::Slot(slot)) => writeln!(out, "ok {slot}"),
        Ok(Answer::Analysis(begin, losers, dirty_pages)) => {
            writeln!(out, "ok {begin} {losers} {dirty_pages}")
        }
        Ok(Answer::Pass(first, second)) => writeln!(out, "ok {first} {second}"),
        Ok(Answer::Bytes(bytes)) => writeln!(out, "ok {}", HexText(bytes.as_slice())),
        Err(why) => print_refusal(out, *why),
    }
}

fn print_refusal<W: Write>(out: &mut W, why: Refusal) -> io::Result<()> {
    let number = why.number();
    match why {
        Refusal::PowerLost(Device::Pages, page) => writeln!(out, "no {number} pages {page}"),
        Refusal::PowerLost(Device::Log, slot) => writeln!(out, "no {number} log {slot}"),
        _ => writeln!(out, "no {number}"),
    }
}
