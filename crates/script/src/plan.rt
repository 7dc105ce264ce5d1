// A plan for the operations to come: in which of them power is lost, what that leaves, how far appends raise the forced count.
ghost use Rattle.std.specs.Prelude.{◌≡◌, is_none, if◌then◌else◌, false};
ghost use Rattle.script.specs.ScriptedPlans.{lost_at, planned, advanced, loss, keeps_old, stops_before, standing, answered};

// What a loss of power leaves. Each kind of operation reads it in its own way, since a plan does not know which it will meet.
#[derive(Clone, Copy, Debug, PartialEq, Eq)]
pub enum Choice {
    // A write leaves the old page; with any other choice the new one.
    Old,
    New,
    // An append leaves the log as it was; with any other choice the slot stands at its end.
    Before,
    After,
    // A force leaves so many of the unforced slots forced, at most all; with any other choice none.
    Count(u32),
}

// A loss of power to come. Counted are writes, appends and forces of both devices together, each where there is power, and the page or
// the room for the slot.
// Battery memory has its own, `PowerCut`: one generic struct for both would lose the names of what is left, and a script counts in 32 bits.
#[derive(Clone, Copy, Debug, PartialEq, Eq)]
pub struct Loss {
    // How many operations still succeed before the one in which power is lost.
    pub after: u32,
    pub choice: Choice,
}

impl Loss {
    // Power is lost in the operation of this number, from now on and from 1; 0: in none.
    pub fn at(number: u32, choice: Choice) -> Option<Loss>
        ensures { result ≡ lost_at number choice }
    {
        let after = number.checked_sub(1)?;
        Some(Loss { after, choice })
    }
}

#[derive(Clone, Copy, Debug, PartialEq, Eq)]
pub struct PowerPlan {
    loss: Option<Loss>,
    raise: u32,
    operations: u32,
}

impl PowerPlan {
    // An append that puts its slot raises the forced count by `raise`, at most to the length.
    pub fn new(loss: Option<Loss>, raise: u32) -> PowerPlan
        ensures { result ≡ planned loss raise }
    {
        PowerPlan {
            loss,
            raise,
            operations: 0,
        }
    }

    pub fn raise(&self) -> u32
        ensures { result ≡ self.now.raise }
    {
        self.raise
    }

    // How many operations were made under this plan; the count stops at the largest number.
    pub fn operations(&self) -> u32
        ensures { result ≡ self.now.operations }
    {
        self.operations
    }

    // One operation more; where power is lost in it, what that leaves.
    pub fn advance(&mut self) -> Option<Choice>
        ensures after { self.new ≡ advanced self.old }
        ensures loss { result ≡ loss self.old }
    {
        self.operations = self.operations.saturating_add(1);
        let loss = self.loss?;
        self.loss = Loss::at(loss.after, loss.choice);
        (loss.after == 0).then_some(loss.choice)
    }
}

// The stores here compare with the choice itself; these are for other devices.
impl Choice {
    pub fn keeps_old(self) -> bool
        ensures { result ≡ keeps_old self }
    {
        self == Choice::Old
    }

    pub fn stops_before(self) -> bool
        ensures { result ≡ stops_before self }
    {
        self == Choice::Before
    }

    // How many unforced slots a lost force leaves forced.
    pub fn standing(self) -> u32
        ensures { result ≡ standing self }
    {
        match self {
            Choice::Count(slots) => slots,
            Choice::Old | Choice::New | Choice::Before | Choice::After => 0,
        }
    }
}

// What an operation of a device answers, given the loss in it, if any: that takes the power, and the answer is this fault.
pub fn answer<F: Copy>(loss: Option<Choice>, powered: &mut bool, fault: F) -> Result<(), F>
    ensures value { result ≡ answered loss fault }
    ensures power { powered.new ≡ (if is_none loss then powered.old else false) }
{
    match loss {
        None => Ok(()),
        Some(_) => {
            *powered = false;
            Err(fault)
        }
    }
}
