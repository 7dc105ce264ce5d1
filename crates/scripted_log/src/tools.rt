// Making a scripted log, and what tools do with it beside the interface, whether or not there is power.
ghost use Rattle.std.specs.Prelude.{◌≡◌, ◌-◌, ◌^◌, min, true, [], length, Ok, Err, is_ok, IfOk, if◌then◌else◌, nat_lt};
ghost use Rattle.std.specs.Option.{option_copied};
ghost use Rattle.scripted_log.specs.ScriptedLog.{model};
ghost use Rattle.scripted_log.specs.ScriptedTools.{slot_at, has_slot, with_slot_set, with_slot_forced, without_power};

use crate::ScriptedLog;
use device::{LogFault, LogStore, MOST_SLOTS};
use script::Script;
use std::alloc::{AllocError, Global};

impl ScriptedLog {
    // An empty log with power; its capacity is at most 4,294,967,294.
    pub fn new(heap: Global, capacity: u32, script: Script) -> Result<ScriptedLog, AllocError>
        ensures { IfOk result (λ s. model s ≡ record { capacity = min capacity (2 ^ 32 - 2); slots = []; forced = 0; powered = true }) }
    {
        let slots = Vec::with_capacity(heap, capacity.min(MOST_SLOTS) as usize)?;
        Ok(ScriptedLog {
            slots,
            forced: 0,
            powered: true,
            script,
        })
    }

    // How many slots there are.
    pub fn slots(&self) -> u32
        ensures { result ≡ length (model self.now).slots }
    {
        self.slots.len() as u32
    }

    // How many of them are forced.
    pub fn forced(&self) -> u32
        ensures { result ≡ (model self.now).forced }
    {
        self.forced
    }

    pub fn slot(&self, slot: u32) -> Option<&[u8; 60]>
        ensures { option_copied result ≡ slot_at (model self.now).slots slot }
    {
        let index = slot.checked_sub(1)?;
        self.slots.get(index as usize)
    }

    // Where there is no such slot nothing changes.
    pub fn set_slot(&mut self, slot: u32, bytes: &[u8; 60]) -> Result<(), LogFault>
        ensures value { result ≡ (if has_slot (model self.old).slots slot then Ok tt else Err LogFault.Outside) }
        ensures after { model self.new ≡ (if is_ok result then with_slot_set (model self.old) slot bytes.now else model self.old) }
    {
        let index = slot.checked_sub(1).ok_or(LogFault::Outside)?;
        let place = self.slots.get_mut(index as usize).ok_or(LogFault::Outside)?;
        *place = *bytes;
        Ok(())
    }

    // Puts a slot at the end and makes all forced; where the log is full nothing changes.
    pub fn put_slot(&mut self, bytes: &[u8; 60]) -> Result<(), LogFault>
        ensures value { result ≡ (if nat_lt (length (model self.old).slots) (model self.old).capacity then Ok tt else Err LogFault.Full) }
        ensures after { model self.new ≡ (if is_ok result then with_slot_forced (model self.old) bytes.now else model self.old) }
    {
        if self.slots() >= self.capacity() {
            return Err(LogFault::Full);
        }
        self.put_raised(bytes, u32::MAX);
        Ok(())
    }

    pub fn cut_power(&mut self)
        ensures { model self.new ≡ without_power (model self.old) }
    {
        self.powered = false;
    }
}
