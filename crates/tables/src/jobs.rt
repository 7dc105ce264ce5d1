// The open jobs, at most eight. Their places are reserved when the table is made, so that no call wants memory later.
use rules::JobEntry;
use std::marker::Model;

mod ask;
mod change;
mod lend;

// The list without the limits, so that an entry of it can be lent. A sorted Vec, since a map would want memory with each entry.
#[derive(Drop)]
struct Entries {
    list: Vec<JobEntry>,
}

#[derive(Drop)]
pub struct JobTable {
    entries: Entries,
}

// Callers see the entries, ascending by job.
impl Model for JobTable {
    ghost use Rattle.rules.specs.Tables.{Jobs};
    ghost use Rattle.tables.specs.Places.{HasPlaces};

    ghost Value = { Jobs };

    ghost view = { λ t. t.entries.list.items };

    ghost invariant = { λ t. HasPlaces 8 t.entries.list };
}
