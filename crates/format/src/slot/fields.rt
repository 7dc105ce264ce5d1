// The fields of a slot as they lie in its bytes, and the table of the kinds and the fields that each uses.
ghost use Rattle.std.specs.Prelude.{◌≡◌, replicate, if◌then◌else◌};
ghost use Rattle.format.specs.Slots.{uses_of, fields, read_fields, laid_out, unused_zero, job_fits, link_fits, checked, only_used, Sized};

use super::{Misfit, SlotKind};
use crate::bytes::{all_zero, number_at};

// Every field that some kind uses; a field that the slot's kind does not use is zero.
#[derive(Clone, Copy)]
pub(crate) struct Fields {
    pub kind: SlotKind,
    pub page: u8,
    pub job: u32,
    pub lrc: u32,
    pub link: u32,
    pub change: [u8; 40],
}

// Which fields a kind uses.
#[derive(Clone, Copy)]
pub(crate) struct Uses {
    pub page: bool,
    pub job: bool,
    pub lrc: bool,
    pub link: bool,
    pub change: bool,
}

const NOTHING: Uses = Uses {
    page: false,
    job: false,
    lrc: false,
    link: false,
    change: false,
};

const JOB: Uses = Uses {
    job: true,
    ..NOTHING
};

const RECORD: Uses = Uses {
    page: true,
    job: true,
    lrc: true,
    link: true,
    change: true,
};

// The kinds in the order of their numbers, each with the fields that it uses.
const KINDS: [(SlotKind, Uses); 9] = [
    (SlotKind::Open, JOB),
    (SlotKind::Change, RECORD),
    (SlotKind::Compensation, RECORD),
    (SlotKind::Commit, JOB),
    (SlotKind::End, JOB),
    (SlotKind::CheckpointBegin, NOTHING),
    (
        SlotKind::CheckpointPage,
        Uses {
            page: true,
            link: true,
            ..NOTHING
        },
    ),
    (SlotKind::CheckpointJob, Uses { link: true, ..JOB }),
    (
        SlotKind::CheckpointEnd,
        Uses {
            link: true,
            ..NOTHING
        },
    ),
];

impl SlotKind {
    // The row of a kind is at its number less one, which `prove!` has checked of every kind.
    fn uses(self) -> Uses
        ensures { result ≡ uses_of self }
    {
        let (kind, uses) = KINDS[self as usize - 1];
        prove!(kind == self);
        uses
    }
}

impl Fields {
    // A kind, and zero in every other field.
    pub(crate) fn zero(kind: SlotKind) -> Fields
        ensures { result ≡ fields kind 0 0 0 0 (replicate 40 0) }
    {
        Fields {
            kind,
            page: 0,
            job: 0,
            lrc: 0,
            link: 0,
            change: [0; 40],
        }
    }

    // The fields of 60 bytes, where the bytes that no kind uses are zero.
    pub(crate) fn read(bytes: &[u8; 60]) -> Result<Fields, Misfit>
        ensures { result ≡ read_fields bytes.now }
    {
        let [number, page, ..] = *bytes;
        let kind = SlotKind::try_from(number)?;
        let [_, _, 0, 0, .., 0, 0, 0, 0] = &bytes[..] else {
            return Err(Misfit::UnusedNotZero);
        };
        let mut change = [0; 40];
        change.copy_from_slice(&bytes[16..56]);
        Ok(Fields {
            kind,
            page,
            job: number_at(bytes, 4),
            lrc: number_at(bytes, 8),
            link: number_at(bytes, 12),
            change,
        })
    }

    // The 60 bytes that have these fields.
    pub(crate) fn write(&self) -> [u8; 60]
        ensures value { result ≡ laid_out self.now }
        ensures sized { Sized self.now }
    {
        let Fields {
            kind,
            page,
            job,
            lrc,
            link,
            change,
        } = *self;
        let mut bytes = [0; 60];
        bytes[0] = u8::from(kind);
        bytes[1] = page;
        bytes[4..8].copy_from_slice(&job.to_le_bytes());
        bytes[8..12].copy_from_slice(&lrc.to_le_bytes());
        bytes[12..16].copy_from_slice(&link.to_le_bytes());
        bytes[16..56].copy_from_slice(&change);
        bytes
    }

    // Whether the fields fit slot `number` of a log over `pages` pages, or the first thing by which they do not.
    pub(crate) fn check(&self, number: u32, pages: u32) -> Result<(), Misfit>
        ensures { result ≡ checked pages number self.now }
    {
        let uses = self.kind.uses();
        if !self.unused_zero() {
            return Err(Misfit::UnusedNotZero);
        }
        if uses.page && u32::from(self.page) >= pages {
            return Err(Misfit::PageOutside(self.page));
        }
        if !self.job_fits(number) {
            return Err(Misfit::JobOutside(self.job));
        }
        if uses.lrc && self.lrc < 1 {
            return Err(Misfit::LrcZero);
        }
        if !self.link_fits(number) {
            return Err(Misfit::LinkOutside(self.link));
        }
        Ok(())
    }

    // Every field that the kind does not use is zero.
    fn unused_zero(&self) -> bool
        ensures { result ≡ unused_zero (uses_of self.now.kind) self.now }
    {
        let uses = self.kind.uses();
        (uses.page || self.page == 0)
            && (uses.job || self.job == 0)
            && (uses.lrc || self.lrc == 0)
            && (uses.link || self.link == 0)
            && (uses.change || all_zero(&self.change))
    }

    fn job_fits(&self, number: u32) -> bool
        ensures { result ≡ job_fits number (uses_of self.now.kind) self.now }
    {
        !self.kind.uses().job
            || (1 <= self.job
                && match self.kind {
                    SlotKind::Open => self.job == number,
                    _ => self.job <= number,
                })
    }

    fn link_fits(&self, number: u32) -> bool
        ensures { result ≡ link_fits number (uses_of self.now.kind) self.now }
    {
        let least = match self.kind {
            SlotKind::CheckpointPage | SlotKind::CheckpointEnd => 1,
            _ => 0,
        };
        !self.kind.uses().link || (least <= self.link && self.link < number)
    }

    // The fields with zero in each that the kind does not use.
    pub(crate) fn only_used(self) -> Fields
        ensures { result ≡ only_used self }
    {
        let uses = self.kind.uses();
        Fields {
            kind: self.kind,
            page: if_used(uses.page, self.page, 0),
            job: if_used(uses.job, self.job, 0),
            lrc: if_used(uses.lrc, self.lrc, 0),
            link: if_used(uses.link, self.link, 0),
            change: if_used(uses.change, self.change, [0; 40]),
        }
    }
}

fn if_used<T: Copy>(used: bool, value: T, zero: T) -> T
    ensures { result ≡ (if used then value else zero) }
{
    if used { value } else { zero }
}
