// Where power can be lost: at each operation of the devices, in each way that a device allows.
ghost use Rattle.std.specs.Prelude.{◌≡◌};
ghost use Rattle.std.specs.Iterator.{YieldsFirst, item_count};
ghost use Rattle.drill.specs.Places.{last_way, left_in, all_places, rest};

use crate::step::{Step, Stopped};
use script::{Choice, Loss};
use server::{Device, Refusal};
use std::fmt;

#[derive(Clone, Copy)]
pub enum Operation {
    Write { page: u32 },
    Append { slot: u32 },
    // Of the slots up to the last so many are not forced yet.
    Force { last: u32, unforced: u32 },
}

// An operation of a run, by its number from 1, and the step whose call makes it.
#[derive(Clone, Copy)]
pub struct Spot {
    pub number: u32,
    pub step: Step,
    pub operation: Operation,
}

// Power is lost at this spot, and leaves this.
#[derive(Clone, Copy)]
pub struct Place {
    pub spot: Spot,
    pub left: Choice,
}

// Goes through the places of these spots; the first spot is gone through from this way on.
#[derive(Drop)]
pub struct Places<'a> {
    spots: &'a [Spot],
    way: u32,
}

impl<'a> Places<'a> {
    pub(crate) fn of(spots: &'a [Spot]) -> Places<'a>
        ensures { rest result ≡ all_places spots.now }
    {
        Places { spots, way: 0 }
    }
}

impl Iterator for Places<'_> {
    type Item = Place;

    ghost next_gives = { YieldsFirst rest };

    ghost remaining = { item_count rest };

    fn next(&mut self) -> Option<Place> {
        let (spot, others) = self.spots.split_first()?;
        let left = spot.operation.left_in(self.way);
        if self.way < spot.operation.last_way() {
            self.way += 1;
        } else {
            self.spots = others;
            self.way = 0;
        }
        Some(Place { spot: *spot, left })
    }
}

impl Operation {
    // The ways in which an operation can be lost are numbered from 0 to this.
    fn last_way(self) -> u32
        ensures { result ≡ last_way self }
    {
        match self {
            Operation::Write { .. } | Operation::Append { .. } => 1,
            Operation::Force { unforced, .. } => unforced,
        }
    }

    // In the first way nothing of the operation stands.
    fn left_in(self, way: u32) -> Choice
        ensures { result ≡ left_in self way }
    {
        match (self, way) {
            (Operation::Write { .. }, 0) => Choice::Old,
            (Operation::Write { .. }, _) => Choice::New,
            (Operation::Append { .. }, 0) => Choice::Before,
            (Operation::Append { .. }, _) => Choice::After,
            (Operation::Force { .. }, slots) => Choice::Count(slots),
        }
    }
}

impl Spot {
    // How a run ends that loses power here.
    pub(crate) fn stopped(&self) -> Stopped {
        let refusal = match self.operation {
            Operation::Write { page } => Refusal::PowerLost(Device::Pages, page),
            Operation::Append { slot } => Refusal::PowerLost(Device::Log, slot),
            Operation::Force { last, .. } => Refusal::PowerLost(Device::Log, last),
        };
        Stopped {
            step: self.step,
            refusal,
        }
    }
}

impl Place {
    pub(crate) fn loss(&self) -> Option<Loss> {
        Loss::at(self.spot.number, self.left)
    }
}

impl fmt::Display for Operation {
    fn fmt<W: fmt::Write>(&self, f: &mut fmt::Formatter<W>) -> fmt::Result {
        match self {
            Operation::Write { page } => write!(f, "write of page {page}"),
            Operation::Append { slot } => write!(f, "append of slot {slot}"),
            Operation::Force { last, .. } => write!(f, "force up to slot {last}"),
        }
    }
}

// What a place leaves, in words.
impl fmt::Display for Place {
    fn fmt<W: fmt::Write>(&self, f: &mut fmt::Formatter<W>) -> fmt::Result {
        match (self.spot.operation, self.left) {
            (Operation::Write { .. }, Choice::Old) => f.write_str("the old page"),
            (Operation::Write { .. }, _) => f.write_str("the new page"),
            (Operation::Append { .. }, Choice::Before) => f.write_str("no slot"),
            (Operation::Append { .. }, _) => f.write_str("the slot"),
            (Operation::Force { unforced, .. }, left) => {
                let standing = left.standing();
                write!(f, "{standing} of {unforced} slots")
            }
        }
    }
}
