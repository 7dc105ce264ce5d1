// Changes in words, for people.
use crate::addition::Addition;
use crate::patch::Patch;
use std::fmt;

impl fmt::Display for Patch {
    fn fmt<W: fmt::Write>(&self, f: &mut fmt::Formatter<W>) -> fmt::Result {
        let offset = self.offset();
        write!(f, "patch at {offset} with")?;
        for byte in self.bytes() {
            write!(f, " {byte:02x}")?;
        }
        Ok(())
    }
}

impl fmt::Display for Addition {
    fn fmt<W: fmt::Write>(&self, f: &mut fmt::Formatter<W>) -> fmt::Result {
        let offset = self.offset();
        let amount = self.amount();
        write!(f, "addition at {offset} of {amount}")
    }
}
