// What the program is asked: the number of pages, the kind of change, how the log lies in the image, and where the image is.
use crate::failure::Failure;
use device::MOST_PAGES;
use std::env;
use std::str::FromStr;

#[derive(Drop)]
pub struct Arguments {
    pub pages: u32,
    pub kind: ChangeKind,
    pub layout: Layout,
    // None: standard input.
    pub file: Option<String>,
}

#[derive(Clone, Copy)]
pub enum ChangeKind {
    Patch,
    Addition,
}

#[derive(Clone, Copy)]
pub enum Layout {
    // One slot after the other.
    Slots,
    // Log pages, four slots to a page.
    Pages,
}

impl Arguments {
    pub(crate) fn parse(rt: &HostRuntime) -> Result<Arguments, Failure> {
        let mut words = env::args(rt)?;
        let _program = words.next();
        let pages = words.next().ok_or(Failure::Usage)?;
        let kind = words.next().ok_or(Failure::Usage)?;
        let layout = words.next().ok_or(Failure::Usage)?;
        let file = words.next();
        if words.next().is_some() {
            return Err(Failure::Usage);
        }
        Ok(Arguments {
            pages: page_count(pages.as_str())?,
            kind: kind.parse()?,
            layout: layout.parse()?,
            file,
        })
    }
}

fn page_count(text: &str) -> Result<u32, Failure> {
    text.parse()
        .ok()
        .filter(|pages| (1..=MOST_PAGES).contains(pages))
        .ok_or(Failure::Pages)
}

impl FromStr for ChangeKind {
    type Err = Failure;

    fn from_str(text: &str) -> Result<ChangeKind, Failure> {
        match text {
            "patch" => Ok(ChangeKind::Patch),
            "addition" => Ok(ChangeKind::Addition),
            _ => Err(Failure::Kind),
        }
    }
}

impl FromStr for Layout {
    type Err = Failure;

    fn from_str(text: &str) -> Result<Layout, Failure> {
        match text {
            "slots" => Ok(Layout::Slots),
            "pages" => Ok(Layout::Pages),
            _ => Err(Failure::Layout),
        }
    }
}
