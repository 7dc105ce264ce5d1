// Reads a script line by line, and prints what comes of each line.
use crate::bad_line::BadLine;
use crate::failure::Failure;
use crate::parser::parse;
use crate::printer::print_answer;
use crate::session::{Outcome, Session};
use std::alloc::Global;
use std::io::{BufRead, BufReader, BufWriter, Read, Write};
use std::{io, str};

#[derive(Drop)]
struct ScriptRun<W> {
    heap: Global,
    session: Session,
    out: W,
}

// Answers how many lines were refused, each with a sentence on standard error.
pub(crate) fn replay<R: Read + Drop>(rt: &HostRuntime, input: R) -> Result<u64, Failure> {
    let heap = rt.alloc();
    let mut reader = BufReader::new(heap, input)?;
    let mut run = ScriptRun {
        heap,
        session: Session::new(heap),
        out: BufWriter::new(heap, rt.stdout())?,
    };
    let mut line = Vec::new(heap);
    let mut refused = 0u64;
    // Every loop has to end, and no script has so many lines.
    for number in 1..u64::MAX {
        line.clear();
        if reader.read_until(b'\n', &mut line)? == 0 {
            break;
        }
        match run.obey(line.as_slice()) {
            Ok(outcome) => run.print(&outcome)?,
            Err(why) => {
                refused = refused.saturating_add(1);
                eprintln!(rt; "replay: line {number}: {why}")?;
            }
        }
    }
    Ok(refused)
}

impl<W: Write> ScriptRun<W> {
    fn obey(&mut self, line: &[u8]) -> Result<Outcome, BadLine> {
        let line = str::from_utf8(line).map_err(|_| BadLine::NotText)?;
        match parse(self.heap, line)? {
            Some(command) => self.session.obey(command),
            None => Ok(Outcome::Nothing),
        }
    }

    // Flushed at each line, so that answers and complaints come in the order of the lines.
    fn print(&mut self, outcome: &Outcome) -> io::Result<()> {
        match outcome {
            Outcome::Nothing => return Ok(()),
            Outcome::Answer(answer) => print_answer(&mut self.out, answer)?,
            Outcome::State => self.session.print_state(&mut self.out)?,
        }
        self.out.flush()
    }
}
