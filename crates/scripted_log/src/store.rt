// A scripted log as a log store.
ghost use Rattle.std.specs.Prelude.{◌≡◌, ◌<◌, length, vec_len, vec_capacity};
ghost use Rattle.device.specs.LogStores.{new_slot};
ghost use Rattle.script.specs.ScriptedPlans.{answered, with_raise, left_by_append, left_by_force};
ghost use Rattle.scripted_log.specs.ScriptedLog.{model};

use crate::ScriptedLog;
use device::{LogFault, LogStore, check_power};
use script::{Choice, answer};

impl LogStore for ScriptedLog {
    ghost model = { model };

    ghost sound = { λ s. s.sound };

    fn capacity(&self) -> u32 {
        self.slots.capacity() as u32
    }

    fn is_powered(&self) -> bool {
        self.powered
    }

    fn len(&self) -> Result<u32, LogFault> {
        check_power(self.powered, LogFault::PowerLost(0))?;
        Ok(self.slots())
    }

    fn read(&self, slot: u32) -> Result<[u8; 60], LogFault> {
        check_power(self.powered, LogFault::PowerLost(slot))?;
        self.slot(slot).copied().ok_or(LogFault::Outside)
    }

    fn append(&mut self, bytes: &[u8; 60]) -> Result<(), LogFault> {
        let last = self.slots();
        check_power(self.powered, LogFault::PowerLost(last + 1))?;
        if last >= self.capacity() {
            return Err(LogFault::Full);
        }
        let raise = self.script.plan().raise();
        let loss = self.script.operation();
        self.append_or_lose(bytes, loss, raise)
    }

    fn force(&mut self) -> Result<(), LogFault> {
        check_power(self.powered, LogFault::PowerLost(self.slots()))?;
        let loss = self.script.operation();
        self.force_or_lose(loss)
    }

    fn power_on(&mut self) {
        self.slots.truncate(self.forced as usize);
        self.powered = true;
    }
}

// A function for each operation: they have only the loss in common, and each leaves something else.
impl ScriptedLog {
    // An append where there is room; with a loss, what that leaves is chosen.
    fn append_or_lose(
        &mut self,
        bytes: &[u8; 60],
        loss: Option<Choice>,
        raise: u32,
    ) -> Result<(), LogFault>
        requires { vec_len self.old.slots < vec_capacity self.old.slots }
        ensures value { result ≡ answered loss (LogFault.PowerLost (new_slot (model self.old))) }
        ensures after { model self.new ≡ left_by_append loss raise (model self.old) bytes.now }
    {
        let fault = LogFault::PowerLost(self.slots() + 1);
        if loss != Some(Choice::Before) {
            self.put_raised(bytes, raise);
        }
        answer(loss, &mut self.powered, fault)
    }

    // Puts a slot at the end and raises the forced count, at most to the length.
    pub(crate) fn put_raised(&mut self, bytes: &[u8; 60], raise: u32)
        requires { vec_len self.old.slots < vec_capacity self.old.slots }
        ensures { model self.new ≡ with_raise (model self.old) bytes.now raise self.old.powered }
    {
        self.slots.push_reserved(*bytes);
        self.forced = self.forced.saturating_add(raise).min(self.slots());
    }

    // A force; with a loss, so many slots more become forced as are chosen.
    fn force_or_lose(&mut self, loss: Option<Choice>) -> Result<(), LogFault>
        ensures value { result ≡ answered loss (LogFault.PowerLost (length (model self.old).slots)) }
        ensures after { model self.new ≡ left_by_force loss (model self.old) }
    {
        let last = self.slots();
        self.forced = match loss {
            None => last,
            Some(choice) => self.forced.saturating_add(choice.standing()).min(last),
        };
        answer(loss, &mut self.powered, LogFault::PowerLost(last))
    }
}
