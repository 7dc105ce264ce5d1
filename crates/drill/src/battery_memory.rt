// Drills on battery memory, which loses power once at most, in a write or a force.
use crate::failure::Failure;
use crate::kind::Drilled;
use crate::outcome::Outcome;
use crate::place::{Operation, Place, Places, Spot};
use crate::report::Report;
use crate::run::Run;
use crate::step::{Steps, Stopped};
use battery::{PowerCut, battery_log, battery_pages};
use script::Choice;
use std::alloc::Global;
use std::io::Write;
use std::marker::PhantomData;
use std::slice;

#[derive(Drop)]
pub struct BatteryDrill<'a, K> {
    pub heap: Global,
    pub pages: u32,
    pub slots: u32,
    pub steps: &'a Steps,
    pub kind: PhantomData<K>,
}

// The losses that the two stores are made with.
#[derive(Clone, Copy)]
struct Cuts {
    pages: Option<PowerCut>,
    log: Option<PowerCut>,
}

// How many writes and forces there were; battery memory numbers each of them from 1.
#[derive(Clone, Copy, Default)]
struct Counts {
    writes: u64,
    forces: u64,
}

impl<K: Drilled> BatteryDrill<'_, K> {
    // The spots are those of the script. Answers at how many of them power was lost: at an append it never is.
    pub(crate) fn drill<W: Write>(
        &self,
        spots: &[Spot],
        report: &mut Report<'_, W>,
    ) -> Result<usize, Failure> {
        let outcome = self.outcome(Cuts::NONE, None)?;
        report.count(&outcome);
        report.whole(&outcome)?;
        let mut counts = Counts::default();
        let mut lost = 0usize;
        for spot in spots {
            if counts.count(spot.operation) {
                lost = lost.saturating_add(1);
                for place in Places::of(slice::from_ref(spot)) {
                    self.drill_place(&place, counts, report)?;
                }
            }
        }
        Ok(lost)
    }

    fn drill_place<W: Write>(
        &self,
        place: &Place,
        counts: Counts,
        report: &mut Report<'_, W>,
    ) -> Result<(), Failure> {
        let outcome = self.outcome(counts.cuts(place), Some(place.spot.stopped()))?;
        report.count(&outcome);
        report.place(place, &outcome, None)?;
        Ok(())
    }

    // Power has to be lost where it was on scripted memory.
    fn outcome(&self, cuts: Cuts, lost: Option<Stopped>) -> Result<Outcome, Failure> {
        let mut pages = vec![in self.heap; [0; 256]; self.pages as usize]?;
        let mut slots = vec![in self.heap; [0; 60]; self.slots as usize]?;
        let pages = battery_pages(&mut pages, cuts.pages);
        let log = battery_log(&mut slots, cuts.log);
        let run = Run::<_, _, K>::new(self.heap, pages, log)?.whole(self.steps)?;
        if run.stopped() != lost {
            return Err(Failure::LostElsewhere);
        }
        match lost {
            None => Ok(run.into_outcome()),
            Some(_) => Ok(run.recover(self.steps)?.into_outcome()),
        }
    }
}

impl Cuts {
    const NONE: Cuts = Cuts {
        pages: None,
        log: None,
    };
}

impl Counts {
    // Whether battery memory can lose power in this operation.
    fn count(&mut self, operation: Operation) -> bool {
        match operation {
            Operation::Write { .. } => self.writes = self.writes.saturating_add(1),
            Operation::Force { .. } => self.forces = self.forces.saturating_add(1),
            Operation::Append { .. } => return false,
        }
        true
    }

    // A loss in the last of the writes or forces counted.
    fn cuts(self, place: &Place) -> Cuts {
        match (place.spot.operation, place.left) {
            (Operation::Write { .. }, left) => Cuts {
                pages: PowerCut::at(self.writes, u32::from(left != Choice::Old)),
                log: None,
            },
            (_, left) => Cuts {
                pages: None,
                log: PowerCut::at(self.forces, left.standing()),
            },
        }
    }
}
