// Why a slot is not noted.
ghost use Rattle.std.specs.Prelude.{◌≡◌};
ghost use Rattle.recovery_log.specs.declared.error.NoteError.TheVariants.{OutOfMemory};

use std::alloc::AllocError;
use std::error::Error;

#[derive(Clone, Copy, Debug, PartialEq, Eq)]
pub enum NoteError {
    OutOfMemory,
    // A slot's number has four bytes.
    TooManySlots,
}

impl Error for NoteError {}

// By hand, since contracts name the variant that `?` makes.
impl From<AllocError> for NoteError {
    ghost from_gives = { λ _ r. r ≡ OutOfMemory };

    fn from(_error: AllocError) -> NoteError {
        NoteError::OutOfMemory
    }
}
