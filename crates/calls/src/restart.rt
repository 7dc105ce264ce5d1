// The restart: three passes over the log, each proved to do its plan.
mod analysis;
mod redo;
mod undo;
