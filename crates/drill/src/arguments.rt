// What the program is asked: sizes, how long the script is, the kind of change, the memory, and whether every line is printed.
use crate::failure::{Failure, Misuse};
use std::ops::RangeInclusive;
use std::str::FromStr;
use std::{env, fmt};

pub const HELP: &str = "\
drill [OPTIONS]

Makes the calls of a script on one page of a server: a restart; jobs one after the
other, each of which opens, fetches the page, sends its changes and then the page,
with a checkpoint before the last change. All jobs but the last commit; of the last
the half-done page is written out. Then power is lost, the server restarts, and
every page is looked at.

The drill does this once, and then once for each write, append and force of the
devices, and each way that a device allows, with power lost there; and for each of
these again with power lost in each operation of the restart that follows. After
the last loss comes an unbroken restart and a look at every page.

  --pages N        pages of the store, 1 to 64 (2)
  --slots N        slots of the log, 8 to 4096 (32)
  --jobs N         jobs of the script, 1 to 1000 (2)
  --changes N      changes of each job, 1 to 1000 (2)
  --kind KIND      patch or addition (patch)
  --memory MEMORY  scripted: appends force nothing; forcing: scripted memory whose
                   appends force their slot; battery: battery memory, which loses
                   power once; all: each of these (all)
  --summary        prints the summary alone
  --help           prints this

The status is 0 if every look was right, 1 if not, and 2 if the arguments are wrong.";

pub enum Request {
    Help,
    Drill(Arguments),
}

#[derive(Clone, Copy)]
pub struct Arguments {
    pub pages: u32,
    pub slots: u32,
    pub jobs: u32,
    pub changes: u32,
    pub kind: ChangeKind,
    // None: each kind of memory.
    pub memory: Option<Memory>,
    pub summary: bool,
}

#[derive(Clone, Copy)]
pub enum ChangeKind {
    Patch,
    Addition,
}

#[derive(Clone, Copy, PartialEq, Eq)]
pub enum Memory {
    // Appends leave the forced count.
    Scripted,
    // Each append forces its slot.
    Forcing,
    // Power is lost at most once, in a write or a force.
    Battery,
}

impl Memory {
    pub const ALL: [Memory; 3] = [Memory::Scripted, Memory::Forcing, Memory::Battery];

    // By how much an append raises the forced count.
    pub(crate) fn raise(self) -> u32 {
        match self {
            Memory::Scripted | Memory::Battery => 0,
            Memory::Forcing => 1,
        }
    }
}

impl fmt::Display for Memory {
    fn fmt<W: fmt::Write>(&self, f: &mut fmt::Formatter<W>) -> fmt::Result {
        f.write_str(match self {
            Memory::Scripted => "scripted memory",
            Memory::Forcing => "scripted memory whose appends force",
            Memory::Battery => "battery memory",
        })
    }
}

// An option with a value, which is the next word.
#[derive(Clone, Copy)]
enum Setting {
    Pages,
    Slots,
    Jobs,
    Changes,
    Kind,
    Memory,
}

impl Request {
    pub(crate) fn parse(rt: &HostRuntime) -> Result<Request, Failure> {
        let mut arguments = Arguments::default();
        let mut setting = None;
        for word in env::args(rt)?.skip(1) {
            match (setting, word.as_str()) {
                (Some(given), value) => {
                    arguments.set(given, value)?;
                    setting = None;
                }
                (None, "--help") => return Ok(Request::Help),
                (None, "--summary") => arguments.summary = true,
                (None, name) => setting = Some(name.parse()?),
            }
        }
        match setting {
            Some(_) => Err(Failure::Misuse(Misuse::NoValue)),
            None => Ok(Request::Drill(arguments)),
        }
    }
}

impl Default for Arguments {
    fn default() -> Arguments {
        Arguments {
            pages: 2,
            slots: 32,
            jobs: 2,
            changes: 2,
            kind: ChangeKind::Patch,
            memory: None,
            summary: false,
        }
    }
}

impl Arguments {
    // Whether the drill is to be done on this memory.
    pub(crate) fn asks_for(&self, memory: Memory) -> bool {
        self.memory.is_none_or(|only| only == memory)
    }

    fn set(&mut self, setting: Setting, value: &str) -> Result<(), Misuse> {
        match setting {
            Setting::Pages => self.pages = number(value, 1..=64, Misuse::Pages)?,
            Setting::Slots => self.slots = number(value, 8..=4096, Misuse::Slots)?,
            Setting::Jobs => self.jobs = number(value, 1..=1000, Misuse::Jobs)?,
            Setting::Changes => self.changes = number(value, 1..=1000, Misuse::Changes)?,
            Setting::Kind => self.kind = value.parse()?,
            Setting::Memory => self.memory = only_memory(value)?,
        }
        Ok(())
    }
}

fn number(text: &str, range: RangeInclusive<u32>, misuse: Misuse) -> Result<u32, Misuse> {
    text.parse()
        .ok()
        .filter(|number| range.contains(number))
        .ok_or(misuse)
}

fn only_memory(text: &str) -> Result<Option<Memory>, Misuse> {
    match text {
        "all" => Ok(None),
        "scripted" => Ok(Some(Memory::Scripted)),
        "forcing" => Ok(Some(Memory::Forcing)),
        "battery" => Ok(Some(Memory::Battery)),
        _ => Err(Misuse::Memory),
    }
}

impl FromStr for ChangeKind {
    type Err = Misuse;

    fn from_str(text: &str) -> Result<ChangeKind, Misuse> {
        match text {
            "patch" => Ok(ChangeKind::Patch),
            "addition" => Ok(ChangeKind::Addition),
            _ => Err(Misuse::Kind),
        }
    }
}

impl FromStr for Setting {
    type Err = Misuse;

    fn from_str(text: &str) -> Result<Setting, Misuse> {
        match text {
            "--pages" => Ok(Setting::Pages),
            "--slots" => Ok(Setting::Slots),
            "--jobs" => Ok(Setting::Jobs),
            "--changes" => Ok(Setting::Changes),
            "--kind" => Ok(Setting::Kind),
            "--memory" => Ok(Setting::Memory),
            _ => Err(Misuse::Option),
        }
    }
}
