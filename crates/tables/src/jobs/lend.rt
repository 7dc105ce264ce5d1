// Entries of the job table, lent and changed one at a time.
ghost use Rattle.std.specs.Prelude.{◌≡◌, ◌<◌, map, IsSome, IfSome, ◌↔◌, vec_len, vec_capacity, slice_index_or};
ghost use Rattle.std.specs.Borrow.{LendsIf, sem};
ghost use Rattle.std.specs.Vec.{with_item};
ghost use Rattle.tables.specs.contracts.jobs.Entries.{the_row};
ghost use Rattle.rules.specs.contracts.table.JobEntry.{the_row as entry_row};
ghost use Rattle.tables.specs.Entry.{Makes, of_job};

use super::Entries;
use rules::JobEntry;

impl Entries {
    // The entry at a place, lent to be changed.
    fn entry(&mut self, place: usize) -> Option<&mut JobEntry>
        ensures* writes_back { sem 𝓛 (LendsIf the_row entry_row self.entry result (λ w. record { list = with_item self.old.list place w }) self.old) }
        ensures variant { IsSome result ↔ (place < vec_len self.old.list) }
        ensures value { IfSome result (λ x. x.now ≡ slice_index_or self.old.list.items place x.now) }
    {
        self.list.get_mut(place)
    }

    // Each entry of the job is lent to be changed; the others stay. The table lends one entry at a time, by its place.
    pub(super) fn change<F: Fn(&mut JobEntry)>(&mut self, job: u32, change: F)
        requires { F.IsAlwaysCallable change }
        ensures items { (f : JobEntry → JobEntry) → Makes (F.post change) f → self.new.list.items ≡ map (of_job job f) self.old.list.items }
        ensures len { vec_len self.new.list ≡ vec_len self.old.list }
        ensures capacity { vec_capacity self.new.list ≡ vec_capacity self.old.list }
    {
        for place in 0..self.list.len() {
            if let Some(entry) = self.entry(place) {
                if entry.job == job {
                    change(entry);
                }
            }
        }
    }
}
