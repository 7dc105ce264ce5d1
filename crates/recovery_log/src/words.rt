// What a log says of a job and of its newest checkpoint, and why a slot is not noted, in words, for people.
use crate::error::NoteError;
use crate::jobs::JobSummary;
use crate::summary::Checkpoint;
use std::fmt;

impl fmt::Display for JobSummary {
    fn fmt<W: fmt::Write>(&self, f: &mut fmt::Formatter<W>) -> fmt::Result {
        f.write_str(if self.open {
            "open"
        } else if self.committed {
            "committed"
        } else if self.ended {
            "ended"
        } else {
            "never opened"
        })?;
        match self.not_taken_back {
            0 => Ok(()),
            1 => f.write_str(", 1 change not taken back"),
            pending => write!(f, ", {pending} changes not taken back"),
        }
    }
}

impl fmt::Display for Checkpoint {
    fn fmt<W: fmt::Write>(&self, f: &mut fmt::Formatter<W>) -> fmt::Result {
        let Checkpoint { begin, end } = *self;
        write!(f, "slots {begin} to {end}")
    }
}

impl fmt::Display for NoteError {
    fn fmt<W: fmt::Write>(&self, f: &mut fmt::Formatter<W>) -> fmt::Result {
        f.write_str(match self {
            NoteError::OutOfMemory => "there is not enough memory for the summary",
            NoteError::TooManySlots => "there are more slots than four bytes can number",
        })
    }
}
