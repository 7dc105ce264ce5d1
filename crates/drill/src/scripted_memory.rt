// Drills on scripted memory: power is lost in the script, and again in the restart after it.
use crate::failure::{Failure, Misuse};
use crate::kind::Drilled;
use crate::outcome::Outcome;
use crate::place::{Operation, Place, Places, Spot};
use crate::report::Report;
use crate::run::Run;
use crate::step::{Steps, Stopped};
use crate::tally::Again;
use script::{Choice, Loss, PowerPlan, Script};
use scripted_log::ScriptedLog;
use scripted_pages::ScriptedPages;
use server::{Device, Refusal};
use std::alloc::Global;
use std::io::Write;
use std::marker::PhantomData;

#[derive(Drop)]
pub struct ScriptedDrill<'a, K> {
    pub heap: Global,
    pub pages: u32,
    pub slots: u32,
    // By how much an append raises the forced count.
    pub raise: u32,
    pub steps: &'a Steps,
    pub kind: PhantomData<K>,
}

type ScriptedRun<K> = Run<ScriptedPages, ScriptedLog, K>;

// Two losses of power at most: the first in the script, the second in the restart after the first.
#[derive(Clone, Copy)]
pub struct Losses {
    first: Option<Loss>,
    second: Option<Loss>,
}

impl Losses {
    pub(crate) const NONE: Losses = Losses {
        first: None,
        second: None,
    };

    // One loss more.
    fn and(self, loss: Option<Loss>) -> Losses {
        match self.first {
            None => Losses {
                first: loss,
                second: None,
            },
            first => Losses {
                first,
                second: loss,
            },
        }
    }
}

impl<K: Drilled> ScriptedDrill<'_, K> {
    // The spots are those of the script. Answers at how many of them power was lost.
    pub(crate) fn drill<W: Write>(
        &self,
        spots: &[Spot],
        report: &mut Report<'_, W>,
    ) -> Result<usize, Failure> {
        let outcome = self.trial(Losses::NONE, report)?;
        report.whole(&outcome)?;
        for place in Places::of(spots) {
            self.drill_place(&place, report)?;
        }
        Ok(spots.len())
    }

    // One loss in the script, and with it each loss in the restart that follows. A restart that is refused has none.
    fn drill_place<W: Write>(
        &self,
        place: &Place,
        report: &mut Report<'_, W>,
    ) -> Result<(), Failure> {
        let losses = Losses::NONE.and(place.loss());
        let outcome = self.trial(losses, report)?;
        let again = match outcome.stopped {
            None => Some(self.drill_restart(losses, report)?),
            Some(_) => None,
        };
        report.place(place, &outcome, again.as_ref())?;
        Ok(())
    }

    fn drill_restart<W: Write>(
        &self,
        losses: Losses,
        report: &mut Report<'_, W>,
    ) -> Result<Again, Failure> {
        let mut again = Again::new(self.heap);
        let spots = self.survey(losses)?;
        for place in Places::of(&spots) {
            let outcome = self.trial(losses.and(place.loss()), report)?;
            again.note(place, outcome)?;
        }
        Ok(again)
    }

    // One run, counted.
    fn trial<W: Write>(
        &self,
        losses: Losses,
        report: &mut Report<'_, W>,
    ) -> Result<Outcome, Failure> {
        let script = Script::new(self.heap)?;
        let outcome = self.finished(&script, losses)?.into_outcome();
        report.count(&outcome);
        Ok(outcome)
    }

    // The operations after these losses; without any, those of the whole script. They are counted, and each is found by losing power in it.
    pub(crate) fn survey(&self, losses: Losses) -> Result<Vec<Spot>, Failure> {
        let script = Script::new(self.heap)?;
        let run = self.finished(&script, losses)?;
        if let Some(stopped) = run.stopped() {
            return Err(refused(stopped));
        }
        let mut spots = Vec::new(self.heap);
        for number in 1..=script.plan().operations() {
            spots.push(self.spot(number, losses)?)?;
        }
        Ok(spots)
    }

    // With this choice a lost append leaves no slot and a lost force none forced, so that the log tells which of the two it was.
    fn spot(&self, number: u32, losses: Losses) -> Result<Spot, Failure> {
        let script = Script::new(self.heap)?;
        let run = self.until(&script, losses.and(Loss::at(number, Choice::Before)))?;
        let stopped = run.stopped().ok_or(Failure::NotLost(number))?;
        let operation = operation(stopped.refusal, run.log()).ok_or(Failure::NotLost(number))?;
        Ok(Spot {
            number,
            step: stopped.step,
            operation,
        })
    }

    // A run up to its last loss of power, and then an unbroken restart.
    fn finished(&self, script: &Script, losses: Losses) -> Result<ScriptedRun<K>, Failure> {
        let run = self.until(script, losses)?;
        if losses.first.is_none() {
            return Ok(run);
        }
        script.set(PowerPlan::new(None, self.raise));
        run.recover(self.steps)
    }

    // A run up to its last loss of power; without any, the whole script.
    fn until(&self, script: &Script, losses: Losses) -> Result<ScriptedRun<K>, Failure> {
        script.set(PowerPlan::new(losses.first, self.raise));
        let pages = ScriptedPages::new(self.heap, self.pages, script.clone()?)?;
        let log = ScriptedLog::new(self.heap, self.slots, script.clone()?)?;
        let run = Run::new(self.heap, pages, log)?.whole(self.steps)?;
        if losses.second.is_none() {
            return Ok(run);
        }
        script.set(PowerPlan::new(losses.second, self.raise));
        run.recover(self.steps)
    }
}

// A log that is full is the arguments' fault.
fn refused(stopped: Stopped) -> Failure {
    match stopped.refusal {
        Refusal::LogFull => Failure::Misuse(Misuse::TooFewSlots),
        _ => Failure::Refused(stopped),
    }
}

// The operation in which power was lost, by the answer and by what it left.
fn operation(refusal: Refusal, log: &ScriptedLog) -> Option<Operation> {
    match refusal {
        Refusal::PowerLost(Device::Pages, page) => Some(Operation::Write { page }),
        Refusal::PowerLost(Device::Log, slot) if slot > log.slots() => {
            Some(Operation::Append { slot })
        }
        Refusal::PowerLost(Device::Log, last) => Some(Operation::Force {
            last,
            unforced: last.saturating_sub(log.forced()),
        }),
        _ => None,
    }
}
