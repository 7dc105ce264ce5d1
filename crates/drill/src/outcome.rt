// What came of a run: the numbers of its last restart, and what the looks gave beside what is right.
use crate::step::Stopped;
use std::alloc::Global;
use std::fmt;

#[derive(Drop)]
pub struct Outcome {
    pub passes: Passes,
    pub looks: Vec<Look>,
    // The step that ended the run early.
    pub stopped: Option<Stopped>,
}

#[derive(Clone, Copy, Default)]
pub struct Passes {
    pub analysis: (u32, u32, u32),
    pub redo: (u32, u32),
    pub undo: (u32, u32),
}

#[derive(Clone, Copy)]
pub struct Look {
    pub page: u32,
    pub seen: [u8; 252],
    pub right: [u8; 252],
}

// The first bytes of a page's content, for a line of the table.
#[derive(Clone, Copy)]
pub struct Beginning([u8; 8]);

impl Outcome {
    pub(crate) fn new(heap: Global) -> Outcome {
        Outcome {
            passes: Passes::default(),
            looks: Vec::new(heap),
            stopped: None,
        }
    }

    pub(crate) fn is_right(&self) -> bool {
        self.stopped.is_none() && self.looks.iter().all(Look::is_right)
    }
}

impl Look {
    pub(crate) fn is_right(&self) -> bool {
        self.seen == self.right
    }
}

impl Beginning {
    pub(crate) fn of(content: &[u8; 252]) -> Beginning {
        let mut first = [0; 8];
        first.copy_from_slice(&content[..8]);
        Beginning(first)
    }
}

// Whether it is right, and if not, why.
impl fmt::Display for Outcome {
    fn fmt<W: fmt::Write>(&self, f: &mut fmt::Formatter<W>) -> fmt::Result {
        if let Some(stopped) = &self.stopped {
            return write!(f, "refused in {stopped}");
        }
        match self.looks.iter().find(|look| !look.is_right()) {
            Some(look) => {
                let page = look.page;
                write!(f, "wrong at page {page}")
            }
            None => f.write_str("right"),
        }
    }
}

impl fmt::Display for Beginning {
    fn fmt<W: fmt::Write>(&self, f: &mut fmt::Formatter<W>) -> fmt::Result {
        for byte in &self.0 {
            write!(f, "{byte:02x}")?;
        }
        Ok(())
    }
}
