// Battery memory: a store in memory that its owner lends, whose power is lost at most once, where its maker sets it.
#![tactic(auto)]

ghost use Rattle.std.specs.Prelude.{◌≡◌, ◌<◌, ◌≤◌, ◌==◌, min, length, take, slice_get};
ghost use Rattle.std.specs.Option.{option_copied};

mod owners;
mod pages;
mod slots;

pub use owners::write_in_memory;
pub use pages::{BatteryPages, battery_pages};
pub use slots::{BatteryLog, battery_log};

// Power is lost after so many writes (pages) or forces (log) with power, in the next one; of the new elements that
// this one brings so many stand: all, if it brings fewer.
// The script's `Loss` counts other operations and leaves other things; one generic struct for both would lose the names of what is left.
#[derive(Clone, Copy)]
pub struct PowerCut {
    pub after: u64,
    pub stands: u32,
}

// Of the cells so many are in use, and of those so many stand when power is lost. Of a page store all that have a number are.
// No more than `MOST` have one. The owner lends all cells at once, so how many are in use stands beside them.
#[derive(Drop)]
pub struct Battery<'a, E, const MOST: usize> {
    cells: &'a mut [E],
    used: usize,
    forced: usize,
    ghost in_room: { used ≤ min (length cells.now) MOST },
    ghost in_used: { forced ≤ used },
    // With no cut to come there may be power or not: it may have been lost in the cut, and have come back since.
    powered: bool,
    // The loss of power to come, if any.
    cut: Option<PowerCut>,
}

impl PowerCut {
    ghost use Rattle.battery.specs.Batteries.{cut_at, LostIn};

    // Power is lost in the write or force of this number, counted from 1; at 0 in none.
    pub fn at(number: u64, stands: u32) -> Option<PowerCut>
        ensures value { result ≡ cut_at number stands }
        ensures once { LostIn result (λ n. number == n) }
    {
        let after = number.checked_sub(1)?;
        Some(PowerCut { after, stands })
    }
}

impl<'a, E, const MOST: usize> Battery<'a, E, MOST> {
    ghost use Rattle.battery.specs.Batteries.{held, made};

    // What is in use at the making stands.
    fn new(cells: &'a mut [E], used: usize, cut: Option<PowerCut>) -> Battery<'a, E, MOST>
        requires { used ≤ min (length cells.old) MOST }
        ensures { held result ≡ made cells.entry.ghost_name cells.old used cut }
    {
        Battery {
            cells,
            used,
            forced: used,
            powered: true,
            cut,
        }
    }
}

// No operation looks at more than the element that it touches.
impl<E: Copy, const MOST: usize> Battery<'_, E, MOST> {
    ghost use Rattle.battery.specs.Batteries.{held, room, standing, counted, written, forced_on, appended, on_again, cut_back};

    fn room(&self) -> usize
        ensures { result ≡ room (held self.now) }
    {
        self.cells.len().min(MOST)
    }

    // Lent and not copied: who reads it copies it once, and not again with each answer that it is put into.
    fn get(&self, place: usize) -> Option<&E>
        ensures { option_copied result ≡ slice_get (take self.now.used self.now.cells.now) place }
    {
        self.cells[..self.used].get(place)
    }

    fn write_one(&mut self, place: usize, element: &E)
        requires { place < length self.old.cells.now }
        ensures { held self.new ≡ written place element.now (held self.old) }
    {
        if self.count(1) > 0 {
            self.cells[place] = *element;
        }
    }

    fn append_one(&mut self, element: &E)
        requires { self.old.used < room (held self.old) }
        ensures { held self.new ≡ appended element.now (held self.old) }
    {
        self.cells[self.used] = *element;
        self.used += 1;
    }

    fn force_used(&mut self)
        ensures { held self.new ≡ forced_on (held self.old) }
    {
        let new = self.used - self.forced;
        self.forced += self.count(new);
    }

    // Power comes back, and only the forced elements are in use.
    fn cut_back(&mut self)
        ensures { held self.new ≡ cut_back (held self.old) }
    {
        self.used = self.forced;
        self.turn_on();
    }

    fn turn_on(&mut self)
        ensures { held self.new ≡ on_again (held self.old) }
    {
        self.powered = true;
    }

    // Counts a write or a force that brings new elements, with the loss of power in the set one; answers how many of them stand.
    fn count(&mut self, new: usize) -> usize
        ensures stand { result ≡ standing self.old.cut new }
        ensures few { result ≤ new }
        ensures held { held self.new ≡ counted (held self.old) self.old.cells.now self.old.forced }
    {
        let Some(cut) = self.cut else {
            return new;
        };
        self.cut = PowerCut::at(cut.after, cut.stands);
        if cut.after > 0 {
            return new;
        }
        self.powered = false;
        new.min(cut.stands as usize)
    }
}
