// The calls in service, one to a file, each proved to do its plan.
mod abort;
mod checkpoint;
mod commit;
mod fetch;
mod look;
mod open;
mod record;
mod ship;
mod write_out;
