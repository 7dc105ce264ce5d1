// Theorems about the definitions, each the contract of a function that does nothing else.
ghost use Rattle.rules.specs.Examples.{Worked, Possible};

use format::Change;

// The worked runs come out as they should, and each is a run.
pub fn worked_runs()
    ensures { Worked }
{}

// For every call, every operation of it at which power may be lost and every choice that the runner has of what is left then, the definitions
// have that outcome: no promise is cheap for want of runs.
pub fn every_outcome_is_there<K: Change>()
    ensures { Possible K.Change.meaning }
{}
