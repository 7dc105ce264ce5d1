// The drills that were asked for, one memory after the other.
use crate::arguments::{Arguments, Memory};
use crate::battery_memory::BatteryDrill;
use crate::failure::Failure;
use crate::kind::Drilled;
use crate::report::Report;
use crate::scripted_memory::{Losses, ScriptedDrill};
use crate::step::Steps;
use crate::tally::Tally;
use std::alloc::Global;
use std::io::{BufWriter, Write};
use std::marker::PhantomData;

pub(crate) fn drill<K: Drilled>(rt: &HostRuntime, arguments: &Arguments) -> Result<Tally, Failure> {
    let steps = Steps::new(rt.alloc(), arguments)?;
    let out = BufWriter::new(rt.alloc(), rt.stdout())?;
    let mut report = Report::new(rt, out, arguments.summary);
    for memory in Memory::ALL {
        if arguments.asks_for(memory) {
            on_memory::<K, _>(rt.alloc(), memory, arguments, &steps, &mut report)?;
        }
    }
    Ok(report.finish()?)
}

// Battery memory is drilled at the spots of scripted memory, whose appends force nothing either.
fn on_memory<K: Drilled, W: Write>(
    heap: Global,
    memory: Memory,
    arguments: &Arguments,
    steps: &Steps,
    report: &mut Report<'_, W>,
) -> Result<(), Failure> {
    let Arguments { pages, slots, .. } = *arguments;
    let kind = PhantomData::<K>;
    let scripted = ScriptedDrill {
        heap,
        pages,
        slots,
        raise: memory.raise(),
        steps,
        kind,
    };
    let battery = BatteryDrill {
        heap,
        pages,
        slots,
        steps,
        kind,
    };
    let spots = scripted.survey(Losses::NONE)?;
    report.begin(memory)?;
    let operations = match memory {
        Memory::Scripted | Memory::Forcing => scripted.drill(&spots, report)?,
        Memory::Battery => battery.drill(&spots, report)?,
    };
    report.end(memory, operations)?;
    Ok(())
}
