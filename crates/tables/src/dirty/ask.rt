// Questions to the table of dirty pages.
ghost use Rattle.std.specs.Prelude.{◌≡◌, ◌≤◌, length, nat_lt};
ghost use Rattle.std.specs.Bool.{then_some};
ghost use Rattle.std.specs.Option.{option_map};
ghost use Rattle.rules.specs.Tables.{find_page, least_start};
ghost use Rattle.rules.specs.Restart.{is_due};

use super::DirtyTable;
use rules::DirtyPage;

impl DirtyTable {
    pub fn count(&self) -> usize
        ensures value { result ≡ length self.now }
        ensures few { result ≤ 64 }
    {
        self.list.len()
    }

    // The entries, in the order in which they were entered.
    pub fn listed(&self) -> &[DirtyPage]
        ensures { result.now ≡ self.now }
    {
        self.list.as_slice()
    }

    pub fn find_page(&self, page: u8) -> Option<&DirtyPage>
        ensures { option_map (λ x. x.now) result ≡ find_page page self.now }
    {
        self.list.iter().find(|entry| entry.page == page)
    }

    // Whether redo plays records of the page from this slot on.
    pub fn is_due(&self, page: u8, slot: u32) -> bool
        ensures { result ≡ is_due page slot self.now }
    {
        self.find_page(page)
            .is_some_and(|entry| entry.start <= slot)
    }

    // The smallest redo start, None if no page is dirty.
    pub fn least_start(&self) -> Option<u32>
        ensures { result ≡ then_some (nat_lt 0 (length self.now)) (least_start self.now) }
    {
        self.list.iter().map(|entry| entry.start).min()
    }
}
