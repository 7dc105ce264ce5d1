// How much was tried, and how it came out.
use crate::outcome::Outcome;
use crate::place::Place;
use std::alloc::{AllocError, Global};
use std::fmt;
use std::process::ExitCode;

// Of one memory, or of all.
#[derive(Clone, Copy, Default)]
pub struct Tally {
    // In which power can be lost in the script.
    pub operations: u64,
    pub script_places: u64,
    // In the restarts after those places.
    pub restart_places: u64,
    pub runs: u64,
    pub looks: u64,
    // Runs that were refused, or whose looks were not all right.
    pub wrong: u64,
}

// What came of losing power again, in the restart after one place.
#[derive(Drop)]
pub struct Again {
    pub places: u64,
    pub wrong: Vec<(Place, Outcome)>,
}

impl Tally {
    pub(crate) fn note(&mut self, outcome: &Outcome) {
        self.runs = self.runs.saturating_add(1);
        self.looks = self.looks.saturating_add(outcome.looks.len() as u64);
        if !outcome.is_right() {
            self.wrong = self.wrong.saturating_add(1);
        }
    }

    // A place in the script, with those of the restart after it, if they were tried.
    pub(crate) fn add_place(&mut self, again: Option<&Again>) {
        let restart_places = again.map_or(0, |again| again.places);
        self.script_places = self.script_places.saturating_add(1);
        self.restart_places = self.restart_places.saturating_add(restart_places);
    }

    pub(crate) fn add(&mut self, other: &Tally) {
        self.operations = self.operations.saturating_add(other.operations);
        self.script_places = self.script_places.saturating_add(other.script_places);
        self.restart_places = self.restart_places.saturating_add(other.restart_places);
        self.runs = self.runs.saturating_add(other.runs);
        self.looks = self.looks.saturating_add(other.looks);
        self.wrong = self.wrong.saturating_add(other.wrong);
    }

    pub(crate) fn exit_code(&self) -> ExitCode {
        if self.wrong == 0 {
            ExitCode::SUCCESS
        } else {
            ExitCode::FAILURE
        }
    }

    pub(crate) fn places(&self) -> u64 {
        self.script_places.saturating_add(self.restart_places)
    }
}

impl Again {
    pub(crate) fn new(heap: Global) -> Again {
        Again {
            places: 0,
            wrong: Vec::new(heap),
        }
    }

    // Only what is wrong is kept, to be shown.
    pub(crate) fn note(&mut self, place: Place, outcome: Outcome) -> Result<(), AllocError> {
        self.places = self.places.saturating_add(1);
        if !outcome.is_right() {
            self.wrong.push((place, outcome))?;
        }
        Ok(())
    }
}

impl fmt::Display for Tally {
    fn fmt<W: fmt::Write>(&self, f: &mut fmt::Formatter<W>) -> fmt::Result {
        let Tally {
            operations,
            script_places,
            restart_places,
            runs,
            wrong,
            ..
        } = *self;
        write!(
            f,
            "{operations} operations, {script_places} places in the script, "
        )?;
        write!(f, "{restart_places} in the restarts after them: ")?;
        match wrong {
            0 => write!(f, "all {runs} runs right"),
            _ => write!(f, "{wrong} of {runs} runs not right"),
        }
    }
}

impl fmt::Display for Again {
    fn fmt<W: fmt::Write>(&self, f: &mut fmt::Formatter<W>) -> fmt::Result {
        let places = self.places;
        match self.wrong.len() {
            0 => write!(f, "{places}, all right"),
            wrong => write!(f, "{places}, {wrong} wrong"),
        }
    }
}
