// Making the table of dirty pages, and changing it.
ghost use Rattle.std.specs.Prelude.{◌≡◌, ◌<◌, [], IfOk};
ghost use Rattle.rules.specs.Tables.{with_dirty};

use super::DirtyTable;
use rules::DirtyPage;
use std::alloc::{AllocError, Global};

impl DirtyTable {
    // An empty table with its 64 places.
    pub fn new(heap: Global) -> Result<DirtyTable, AllocError>
        ensures { IfOk result (λ t. t ≡ []) }
    {
        let list = Vec::with_capacity(heap, 64)?;
        Ok(DirtyTable { list })
    }

    pub fn clear(&mut self)
        ensures { self.new ≡ [] }
    {
        self.list.clear();
    }

    // A page that is in the table keeps its start. Of 64 pages each has a place.
    pub fn enter(&mut self, page: u8, start: u32)
        requires { page < 64 }
        ensures { self.new ≡ with_dirty page start self.old }
    {
        if self.find_page(page).is_none() {
            self.list.push_reserved(DirtyPage { page, start });
        }
    }
}
