// The nine kinds of a slot, and the number that stands for each in byte 0.
ghost use Rattle.std.specs.Prelude.{◌≡◌};
ghost use Rattle.std.specs.Option.{ok_or};
ghost use Rattle.format.specs.declared.slot.Misfit.TheVariants.{UnknownKind};
ghost use Rattle.format.specs.Slots.{kind_number, kind_numbered, kind_of_event};

use super::{JobEvent, Misfit};

#[derive(Clone, Copy, Debug, PartialEq, Eq, PartialOrd, Ord)]
pub enum SlotKind {
    Open = 1,
    Change = 2,
    Compensation = 3,
    Commit = 4,
    End = 5,
    CheckpointBegin = 6,
    CheckpointPage = 7,
    CheckpointJob = 8,
    CheckpointEnd = 9,
}

impl TryFrom<u8> for SlotKind {
    type Error = Misfit;

    ghost try_from_gives = { λ number r. r ≡ ok_or (kind_numbered number) (UnknownKind number) };

    fn try_from(number: u8) -> Result<SlotKind, Misfit> {
        match number {
            1 => Ok(SlotKind::Open),
            2 => Ok(SlotKind::Change),
            3 => Ok(SlotKind::Compensation),
            4 => Ok(SlotKind::Commit),
            5 => Ok(SlotKind::End),
            6 => Ok(SlotKind::CheckpointBegin),
            7 => Ok(SlotKind::CheckpointPage),
            8 => Ok(SlotKind::CheckpointJob),
            9 => Ok(SlotKind::CheckpointEnd),
            _ => Err(Misfit::UnknownKind(number)),
        }
    }
}

impl From<SlotKind> for u8 {
    ghost from_gives = { λ kind number. number ≡ kind_number kind };

    fn from(kind: SlotKind) -> u8 {
        kind as u8
    }
}

impl From<JobEvent> for SlotKind {
    ghost from_gives = { λ event kind. kind ≡ kind_of_event event };

    fn from(event: JobEvent) -> SlotKind {
        match event {
            JobEvent::Open => SlotKind::Open,
            JobEvent::Commit => SlotKind::Commit,
            JobEvent::End => SlotKind::End,
        }
    }
}
