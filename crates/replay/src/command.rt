// What a line of a script asks for.
use crate::bad_line::{Argument, BadLine};
use script::PowerPlan;
use server::Device;
use std::str::FromStr;

#[derive(Drop)]
pub enum Command {
    // A new server over blank devices, in place of the one before.
    Store(Store),
    // A call of the server, and what becomes of the devices' operations in it.
    Call(Call, PowerPlan),
    // A change of a device that no server makes.
    Edit(Edit),
    Dump,
}

#[derive(Clone, Copy)]
pub struct Store {
    pub pages: u32,
    pub slots: u32,
    pub kind: ChangeKind,
}

#[derive(Clone, Copy)]
pub enum ChangeKind {
    Patch,
    Addition,
}

impl FromStr for ChangeKind {
    type Err = BadLine;

    fn from_str(text: &str) -> Result<ChangeKind, BadLine> {
        match text {
            "patch" => Ok(ChangeKind::Patch),
            "addition" => Ok(ChangeKind::Addition),
            _ => Err(BadLine::Expected(Argument::Kind)),
        }
    }
}

#[derive(Drop)]
pub enum Call {
    Analysis,
    Redo,
    Undo,
    Service(ServiceCall),
}

#[derive(Drop)]
pub enum ServiceCall {
    Open,
    Fetch {
        job: u32,
        page: u32,
        buffer: Vec<u8>,
    },
    Record {
        job: u32,
        page: u32,
        lrc: u32,
        change: Vec<u8>,
    },
    Ship {
        job: u32,
        page: u32,
        image: Vec<u8>,
    },
    WriteOut {
        page: u32,
    },
    Commit {
        job: u32,
    },
    Abort {
        job: u32,
    },
    Look {
        page: u32,
        buffer: Vec<u8>,
    },
    Checkpoint,
}

#[derive(Clone, Copy)]
pub enum Edit {
    SetPage(u32, [u8; 256]),
    SetSlot(u32, [u8; 60]),
    // A slot at the end of the log; all slots are then forced.
    PutSlot([u8; 60]),
    CutPower(Device),
}
