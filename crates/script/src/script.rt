// A script: a handle to the plan that both devices follow and a tool sets.
// No contract can say what a shared cell holds: what is proved is how a plan goes on and what an operation leaves under it.
use crate::plan::{Choice, PowerPlan};
use std::alloc::{AllocError, Global};
use std::cell::Cell;
use std::rc::Rc;

// A clone is another handle to the same plan.
#[derive(Clone, Drop)]
pub struct Script {
    plan: Rc<Cell<PowerPlan>>,
}

impl Script {
    // A script by which power is never lost and appends leave the forced count.
    pub fn new(heap: Global) -> Result<Script, AllocError> {
        let plan = Rc::new(heap, Cell::new(PowerPlan::new(None, 0)))?;
        Ok(Script { plan })
    }

    // Gives both devices a new plan.
    pub fn set(&self, plan: PowerPlan) {
        self.plan.set(plan);
    }

    // The plan as the operations so far have left it.
    pub fn plan(&self) -> PowerPlan {
        self.plan.get()
    }

    // One operation of a device; where power is lost in it, what that leaves.
    pub fn operation(&self) -> Option<Choice> {
        let mut plan = self.plan.get();
        let loss = plan.advance();
        self.plan.set(plan);
        loss
    }
}
