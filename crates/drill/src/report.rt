// What is said of a drill: a line for each place, how far a long drill is, and the summary.
use crate::arguments::Memory;
use crate::outcome::Outcome;
use crate::place::Place;
use crate::table::Line;
use crate::tally::{Again, Tally};
use std::io;
use std::io::Write;

// After so many runs there is a word of it on standard error.
const PROGRESS: u64 = 1000;

#[derive(Drop)]
pub struct Report<'a, W> {
    rt: &'a HostRuntime,
    out: W,
    summary_alone: bool,
    runs: u64,
    // Of the memory at hand.
    tally: Tally,
    // Of the memories before it.
    done: Vec<(Memory, Tally)>,
}

impl<'a, W: Write> Report<'a, W> {
    pub(crate) fn new(rt: &'a HostRuntime, out: W, summary_alone: bool) -> Report<'a, W> {
        Report {
            rt,
            out,
            summary_alone,
            runs: 0,
            tally: Tally::default(),
            done: Vec::new(rt.alloc()),
        }
    }

    // What comes is of this memory.
    pub(crate) fn begin(&mut self, memory: Memory) -> io::Result<()> {
        self.tally = Tally::default();
        if self.summary_alone {
            return Ok(());
        }
        writeln!(self.out, "{memory}")?;
        self.print(&Line::heads(self.rt.alloc())?)
    }

    // A run is done, whether or not it has a line of its own.
    pub(crate) fn count(&mut self, outcome: &Outcome) {
        self.tally.note(outcome);
        self.runs = self.runs.saturating_add(1);
        if self.runs % PROGRESS == 0 {
            let runs = self.runs;
            let _ = eprintln!(self.rt; "drill: {runs} runs");
        }
    }

    // The script without a loss in any operation.
    pub(crate) fn whole(&mut self, outcome: &Outcome) -> io::Result<()> {
        if self.summary_alone {
            return Ok(());
        }
        self.print(&Line::whole(self.rt.alloc(), outcome)?)
    }

    // A place in the script, and what came of the places in the restart after it, if those were tried: the wrong ones have lines of their own.
    pub(crate) fn place(
        &mut self,
        place: &Place,
        outcome: &Outcome,
        again: Option<&Again>,
    ) -> io::Result<()> {
        self.tally.add_place(again);
        if self.summary_alone {
            return Ok(());
        }
        self.print(&Line::place(self.rt.alloc(), place, outcome, again)?)?;
        if let Some(again) = again {
            for (place, outcome) in &again.wrong {
                self.print(&Line::place_again(self.rt.alloc(), place, outcome)?)?;
            }
        }
        Ok(())
    }

    // In so many operations of the script power was lost.
    pub(crate) fn end(&mut self, memory: Memory, operations: usize) -> io::Result<()> {
        self.tally.operations = operations as u64;
        self.done.push((memory, self.tally))?;
        if self.summary_alone {
            return Ok(());
        }
        writeln!(self.out)
    }

    // Prints the summary, and answers the tally of all memories.
    pub(crate) fn finish(&mut self) -> io::Result<Tally> {
        let mut all = Tally::default();
        for (memory, tally) in &self.done {
            writeln!(self.out, "{memory}: {tally}")?;
            all.add(tally);
        }
        self.print_all(&all)?;
        self.out.flush()?;
        Ok(all)
    }

    fn print_all(&mut self, all: &Tally) -> io::Result<()> {
        let places = all.places();
        let Tally {
            runs,
            looks,
            wrong,
            ..
        } = *all;
        write!(
            self.out,
            "power was lost at {places} places in {runs} runs; "
        )?;
        match wrong {
            0 => writeln!(self.out, "all {looks} looks were right"),
            _ => writeln!(self.out, "{wrong} runs were not right"),
        }
    }

    fn print(&mut self, line: &Line) -> io::Result<()> {
        writeln!(self.out, "{line}")
    }
}
