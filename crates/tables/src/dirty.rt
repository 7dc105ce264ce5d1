// The dirty pages, at most 64, in the order in which they were entered. Their places are reserved when the table is made;
// a map would want memory with each entry.
use rules::DirtyPage;
use std::marker::Model;

mod ask;
mod change;

#[derive(Drop)]
pub struct DirtyTable {
    list: Vec<DirtyPage>,
}

// Callers see the entries.
impl Model for DirtyTable {
    ghost use Rattle.rules.specs.Tables.{Dirty};
    ghost use Rattle.tables.specs.Places.{HasPlaces, PagesOnce};

    ghost Value = { Dirty };

    ghost view = { λ t. t.list.items };

    ghost invariant = { λ t. HasPlaces 64 t.list × PagesOnce t.list.items };
}
