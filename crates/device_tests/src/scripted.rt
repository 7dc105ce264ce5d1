// Scripted memory: what a loss of power leaves at each kind of operation.
use device::{LogFault, LogStore, PageFault, PageStore};
use script::{Choice, Loss, PowerPlan, Script};
use scripted_log::ScriptedLog;
use scripted_pages::ScriptedPages;
use std::test::Fail;

// Two devices under one owner that does not know which they are.
#[derive(Drop)]
struct Devices<P, L> {
    pages: P,
    log: L,
}

impl<P: PageStore, L: LogStore> Devices<P, L> {
    // Three operations, with no regard to what each answers.
    fn write_append_force(&mut self) {
        let _ = self.pages.write(1, &[7; 256]);
        let _ = self.log.append(&[7; 60]);
        let _ = self.log.force();
    }

    fn power_on(&mut self) {
        self.pages.power_on();
        self.log.power_on();
    }
}

#[test]
fn a_write_lost_old_and_one_lost_new(rt: HostRuntime) -> Result<(), Fail> {
    let script = Script::new(rt.alloc())?;
    let mut pages = ScriptedPages::new(rt.alloc(), 2, script.clone()?)?;
    script.set(PowerPlan::new(Loss::at(2, Choice::Old), 0));
    assert_eq!(rt; pages.write(0, &[1; 256]), Ok(()));
    assert_eq!(rt; pages.write(1, &[2; 256]), Err(PageFault::PowerLost(1)));
    assert_eq!(rt; pages.read(0), Err(PageFault::PowerLost(0)));
    pages.power_on();
    assert_eq!(rt; pages.read(0), Ok([1; 256]));
    assert_eq!(rt; pages.read(1), Ok([0; 256]));
    script.set(PowerPlan::new(Loss::at(1, Choice::New), 0));
    assert_eq!(rt; pages.write(1, &[2; 256]), Err(PageFault::PowerLost(1)));
    assert_eq!(rt; pages.page(1), Some(&[2; 256]));
    assert_eq!(rt; pages.write(2, &[2; 256]), Err(PageFault::PowerLost(2)));
    pages.power_on();
    assert_eq!(rt; pages.write(2, &[2; 256]), Err(PageFault::Outside));
    assert_eq!(rt; script.plan().operations(), 1);
    Ok(())
}

#[test]
fn appends_lost_before_and_after_and_a_lost_force(rt: HostRuntime) -> Result<(), Fail> {
    let script = Script::new(rt.alloc())?;
    let mut log = ScriptedLog::new(rt.alloc(), 4096, script.clone()?)?;
    script.set(PowerPlan::new(Loss::at(2, Choice::Before), 1));
    assert_eq!(rt; log.append(&[1; 60]), Ok(()));
    assert_eq!(rt; log.append(&[2; 60]), Err(LogFault::PowerLost(2)));
    assert_eq!(rt; (log.slots(), log.forced()), (1, 1));
    log.power_on();
    script.set(PowerPlan::new(Loss::at(1, Choice::After), 5));
    assert_eq!(rt; log.append(&[2; 60]), Err(LogFault::PowerLost(2)));
    assert_eq!(rt; (log.slots(), log.forced()), (2, 2));
    log.power_on();
    script.set(PowerPlan::new(Loss::at(3, Choice::Count(1)), 0));
    assert_eq!(rt; log.append(&[3; 60]), Ok(()));
    assert_eq!(rt; log.append(&[4; 60]), Ok(()));
    assert_eq!(rt; log.force(), Err(LogFault::PowerLost(4)));
    assert_eq!(rt; (log.slots(), log.forced()), (4, 3));
    log.power_on();
    assert_eq!(rt; log.len(), Ok(3));
    assert_eq!(rt; log.read(3), Ok([3; 60]));
    Ok(())
}

#[test]
fn one_count_over_both_devices(rt: HostRuntime) -> Result<(), Fail> {
    let script = Script::new(rt.alloc())?;
    let pages = ScriptedPages::new(rt.alloc(), 2, script.clone()?)?;
    let log = ScriptedLog::new(rt.alloc(), 2, script.clone()?)?;
    let mut devices = Devices { pages, log };
    script.set(PowerPlan::new(Loss::at(2, Choice::After), 1));
    devices.write_append_force();
    assert_eq!(rt; script.plan().operations(), 2);
    assert!(rt; devices.pages.is_powered() && !devices.log.is_powered());
    assert_eq!(rt; (devices.log.slots(), devices.log.forced()), (1, 1));
    devices.power_on();
    script.set(PowerPlan::new(Loss::at(0, Choice::Old), 0));
    devices.write_append_force();
    assert_eq!(rt; script.plan().operations(), 3);
    assert_eq!(rt; (devices.log.slots(), devices.log.forced()), (2, 2));
    Ok(())
}
