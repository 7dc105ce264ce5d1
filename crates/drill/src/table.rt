// A line of the table for each place: where power was lost, the numbers of the restart that finished, and what the look gave.
use crate::outcome::{Beginning, Outcome};
use crate::place::Place;
use crate::tally::Again;
use std::alloc::{AllocError, Global};
use std::fmt;
use std::fmt::{Display, Style, ToDebug};

const HEADS: [&str; 11] = [
    "no",
    "step",
    "power lost in",
    "which leaves",
    "analysis",
    "redo",
    "undo",
    "page 0",
    "right is",
    "lost again in restart",
    "looks",
];

const WIDTHS: [usize; 11] = [6, 21, 22, 15, 14, 11, 11, 18, 18, 23, 0];

#[derive(Drop)]
pub struct Line {
    heap: Global,
    cells: Vec<String>,
}

impl Line {
    pub(crate) fn heads(heap: Global) -> Result<Line, AllocError> {
        let mut line = Line::new(heap);
        for head in HEADS {
            line.add(&head)?;
        }
        Ok(line)
    }

    // The script without a loss in any operation.
    pub(crate) fn whole(heap: Global, outcome: &Outcome) -> Result<Line, AllocError> {
        let mut line = Line::new(heap);
        for cell in ["", "after the last call", "no operation", ""] {
            line.add(&cell)?;
        }
        line.add_outcome(outcome, None)?;
        Ok(line)
    }

    // A place in the script, and what came of the places in the restart after it, if those were tried.
    pub(crate) fn place(
        heap: Global,
        place: &Place,
        outcome: &Outcome,
        again: Option<&Again>,
    ) -> Result<Line, AllocError> {
        let mut line = Line::new(heap);
        line.add(&place.spot.number)?;
        line.add_loss(place)?;
        line.add_outcome(outcome, again)?;
        Ok(line)
    }

    // A place in the restart after a place that has the line above.
    pub(crate) fn place_again(
        heap: Global,
        place: &Place,
        outcome: &Outcome,
    ) -> Result<Line, AllocError> {
        let mut line = Line::new(heap);
        line.add(&"then")?;
        line.add_loss(place)?;
        line.add_outcome(outcome, None)?;
        Ok(line)
    }

    fn new(heap: Global) -> Line {
        Line {
            heap,
            cells: Vec::new(heap),
        }
    }

    fn add<D: Display>(&mut self, value: &D) -> Result<(), AllocError> {
        self.cells.push(format!(in self.heap; "{value}")?)?;
        Ok(())
    }

    fn add_loss(&mut self, place: &Place) -> Result<(), AllocError> {
        self.add(&place.spot.step)?;
        self.add(&place.spot.operation)?;
        self.add(place)
    }

    fn add_outcome(&mut self, outcome: &Outcome, again: Option<&Again>) -> Result<(), AllocError> {
        let passes = outcome.passes;
        self.add(&passes.analysis.debug())?;
        self.add(&passes.redo.debug())?;
        self.add(&passes.undo.debug())?;
        self.add_look(outcome)?;
        match again {
            Some(again) => self.add(again)?,
            None => self.add(&"")?,
        }
        self.add(outcome)
    }

    // The first page that was looked at stands for all.
    fn add_look(&mut self, outcome: &Outcome) -> Result<(), AllocError> {
        match outcome.looks.first() {
            Some(look) => {
                self.add(&Beginning::of(&look.seen))?;
                self.add(&Beginning::of(&look.right))
            }
            None => {
                self.add(&"")?;
                self.add(&"")
            }
        }
    }
}

// Each cell begins at its column, and no line ends with blanks.
impl Display for Line {
    fn fmt<W: fmt::Write>(&self, f: &mut fmt::Formatter<W>) -> fmt::Result {
        let mut gap = 0usize;
        for (cell, width) in self.cells.iter().zip(WIDTHS) {
            let text = cell.as_str();
            if text.is_empty() {
                gap = gap.saturating_add(width);
            } else {
                write!(f, "{}{text}", "".width(gap))?;
                gap = width.saturating_sub(text.len());
            }
        }
        Ok(())
    }
}
