// Reads an image and prints its slots.
use crate::arguments::Layout;
use crate::failure::Failure;
use battery::battery_pages;
use device::LogStore;
use format::{Change, Slot};
use paged_log::PagedLog;
use recovery_log::Summary;
use std::alloc::Global;
use std::io::{BufWriter, Read, Write};
use std::{fmt, io};

mod report;

// A kind of change whose slots can be printed.
pub(crate) trait Printable: Change + fmt::Display + Copy {}

impl<C: Change + fmt::Display + Copy> Printable for C {}

// Prints slots and counts them in, then prints the summary; knows how many pages the store of their log has.
#[derive(Drop)]
struct Printer<W> {
    out: W,
    summary: Summary,
    pages: u32,
}

pub(crate) fn dump<C: Printable, R: Read + Drop>(
    rt: &HostRuntime,
    reader: R,
    pages: u32,
    layout: Layout,
) -> Result<(), Failure> {
    let heap = rt.alloc();
    let mut printer = Printer {
        out: BufWriter::new(heap, rt.stdout())?,
        summary: Summary::new::<C>(heap),
        pages,
    };
    // Two ways to read, each with its own use of memory: a match is plainer than a closure for each.
    match layout {
        Layout::Slots => printer.slots::<C, R>(reader)?,
        Layout::Pages => printer.log_pages::<C, R>(heap, reader)?,
    }
    printer.print_summary()?;
    printer.out.flush()?;
    Ok(())
}

impl<W: Write> Printer<W> {
    // An image of slots is printed while it is read.
    fn slots<C: Printable, R: Read + Drop>(&mut self, mut reader: R) -> Result<(), Failure> {
        let mut slot = [0; 60];
        // Every loop has to end, and no image has so many slots.
        for _ in 0..u64::MAX {
            let got = fill(&mut reader, &mut slot)?;
            if got < slot.len() {
                self.print_rest(got, "slot")?;
                break;
            }
            self.note::<C>(&slot)?;
        }
        Ok(())
    }

    // An image of log pages is read whole, and the log on these pages is printed.
    fn log_pages<C: Printable, R: Read + Drop>(
        &mut self,
        heap: Global,
        mut reader: R,
    ) -> Result<(), Failure> {
        let mut image = Vec::new(heap);
        let mut page = [0; 256];
        for _ in 0..u64::MAX {
            let got = fill(&mut reader, &mut page)?;
            if got < page.len() {
                self.print_rest(got, "page")?;
                break;
            }
            image.push(page)?;
        }
        let log = PagedLog::new(battery_pages(image.as_mut_slice(), None));
        for number in 1..=log.len()? {
            let slot = log.read(number)?;
            self.note::<C>(&slot)?;
        }
        Ok(())
    }

    fn print_rest(&mut self, got: usize, whole: &str) -> io::Result<()> {
        if got > 0 {
            writeln!(self.out, "{got} bytes at the end are no whole {whole}")?;
        }
        Ok(())
    }

    // Prints the next slot, and counts it in.
    fn note<C: Printable>(&mut self, bytes: &[u8; 60]) -> Result<(), Failure> {
        let number = self
            .summary
            .slots
            .checked_add(1)
            .ok_or(Failure::TooManySlots)?;
        let slot = Slot::<C>::read(bytes, number, self.pages);
        match &slot {
            Ok(slot) => writeln!(self.out, "{number:>6}  {slot}")?,
            Err(why) => writeln!(self.out, "{number:>6}  does not fit: {why}")?,
        }
        let fitting = slot.ok();
        self.summary.note(fitting.as_ref())?;
        Ok(())
    }
}

// Reads until the row is full or the input ends, and answers how many bytes came. Not by the library's `read_to_end`: that goes on where a
// read is interrupted, wants room for more than comes, and tells the system's want of memory as the program's own.
fn fill<R: Read>(reader: &mut R, row: &mut [u8]) -> io::Result<usize> {
    let mut got = 0;
    for _ in 0..row.len() {
        if got >= row.len() {
            break;
        }
        let more = reader.read(&mut row[got..])?;
        if more == 0 {
            break;
        }
        got += more;
    }
    Ok(got)
}
