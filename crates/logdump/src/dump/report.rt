// Prints the summary of a log.
use super::Printer;
use std::io;
use std::io::Write;

impl<W: Write> Printer<W> {
    pub(super) fn print_summary(&mut self) -> io::Result<()> {
        self.print_counts()?;
        self.print_jobs()?;
        self.print_pages()?;
        match self.summary.checkpoint {
            Some(checkpoint) => writeln!(self.out, "last complete checkpoint: {checkpoint}"),
            None => writeln!(self.out, "no complete checkpoint"),
        }
    }

    fn print_counts(&mut self) -> io::Result<()> {
        let slots = self.summary.slots;
        let misfits = self.summary.misfits;
        writeln!(self.out)?;
        writeln!(self.out, "slots: {slots}")?;
        if misfits > 0 {
            writeln!(self.out, "{misfits:>6}  does not fit")?;
        }
        for (kind, count) in &self.summary.kinds {
            if *count > 0 {
                writeln!(self.out, "{count:>6}  {kind}")?;
            }
        }
        Ok(())
    }

    fn print_jobs(&mut self) -> io::Result<()> {
        let jobs = self.summary.jobs.len();
        writeln!(self.out, "jobs: {jobs}")?;
        for (job, state) in &self.summary.jobs {
            writeln!(self.out, "{job:>6}  {state}")?;
        }
        Ok(())
    }

    fn print_pages(&mut self) -> io::Result<()> {
        let pages = self.summary.pages.len();
        writeln!(self.out, "pages touched: {pages}")?;
        for (page, lrc) in &self.summary.pages {
            writeln!(self.out, "{page:>6}  LRC {lrc}")?;
        }
        Ok(())
    }
}
