// What is promised of every run, for every kind of change that keeps the law: each promise is the contract of a function that does nothing else.
#![tactic(auto)]

ghost use Rattle.promises.specs.AnyDevices.{AnyDevices};
ghost use Rattle.promises.specs.Promises.{BlankBegins, LooksRight, CommitsStand, KeptExactly, CompensatedOnce, LosersUndone, CheckpointsAgree, NeverRefused, AgainNothing, CutOrNot};

use format::Change;

// Over blank devices of a legal size the three passes are accepted, unless power is lost, and the server serves.
pub fn blank_devices_begin<K: Change>()
    ensures { BlankBegins K.Change.meaning }
{}

// The content that an accepted look gives is the page's content in the ledger.
pub fn looks_are_right<K: Change>()
    ensures { LooksRight K.Change.meaning }
{}

// The slot of an accepted commit stands in the log then and in every later state.
pub fn commits_stand<K: Change>()
    ensures { CommitsStand K.Change.meaning }
{}

// While the server serves, the jobs with a commit in the log are exactly the kept ones.
pub fn kept_exactly<K: Change>()
    ensures { KeptExactly K.Change.meaning }
{}

// Each compensation in the log takes back the change that it stands for, and no two ever stand for one change.
pub fn compensated_once<K: Change>()
    ensures { CompensatedOnce K.Change.meaning }
{}

// When a restart finishes, exactly one compensation stands for each change of a job that is not kept.
pub fn losers_undone<K: Change>()
    ensures { LosersUndone K.Change.meaning }
{}

// From every complete checkpoint a restart comes to the same as from slot 1.
pub fn checkpoints_agree<K: Change>()
    ensures { CheckpointsAgree K.Change.meaning }
{}

// Analysis is never refused, redo only for not being the next pass, undo only for that or for a loss of power; where power is kept a
// restart finishes.
pub fn passes_accepted<K: Change>()
    ensures { NeverRefused K.Change.meaning }
{}

// A restart right after a finished one appends nothing and reaches the same copies.
pub fn again_nothing<K: Change>()
    ensures { AgainNothing K.Change.meaning }
{}

// A restart that was cut anywhere and then finished reaches the same content as one that was not.
pub fn cut_or_not<K: Change>()
    ensures { CutOrNot K.Change.meaning }
{}

// Over any devices whatever, after any calls: while not out of service both devices have power, what is read fits, and there is room for what is
// owed; a refused call in service alters nothing unless power was lost; every slot that is appended fits. So what the rules say for states
// that cannot be is never met.
pub fn any_devices<K: Change>()
    ensures { AnyDevices K.Change.meaning }
{}
