// Why a job was not ended.
ghost use Rattle.std.specs.Prelude.{◌≡◌, Some, None, cond, IfErr};
ghost use Rattle.rules.specs.Numbers.{hands_back};
ghost use Rattle.server.specs.Answered.{refusal_in, given_back, ended};

use crate::handles::JobHandle;
use rules::{Device, Refusal};
use std::error::Error;
use std::fmt;

#[derive(Debug, Drop)]
pub enum NotEnded {
    // The call was refused. Here is the handle again.
    Refused(Refusal, JobHandle),
    // Power was lost at this page or slot. Whether the job is ended shows after the restart, and the handle is gone.
    PowerLost(Device, u32),
}

impl NotEnded {
    pub fn refusal(&self) -> Refusal
        ensures { result ≡ refusal_in self.now }
    {
        match self {
            NotEnded::Refused(why, _) => *why,
            NotEnded::PowerLost(device, place) => Refusal::PowerLost(*device, *place),
        }
    }
}

impl Error for NotEnded {}

impl fmt::Display for NotEnded {
    fn fmt<W: fmt::Write>(&self, f: &mut fmt::Formatter<W>) -> fmt::Result {
        write!(f, "the job was not ended: {}", self.refusal())
    }
}

// The answer of commit or abort, where it was refused with the handle, unless power was lost.
pub(crate) fn or_handle<A>(answer: Result<A, Refusal>, job: JobHandle) -> Result<A, NotEnded>
    ensures answer { ended result ≡ answer }
    ensures handle { IfErr result (λ e. given_back e ≡ cond (hands_back (refusal_in e)) (Some job) None) }
{
    answer.map_err(|why| match why {
        Refusal::PowerLost(device, place) => NotEnded::PowerLost(device, place),
        _ => NotEnded::Refused(why, job),
    })
}
