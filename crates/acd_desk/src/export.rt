//! The export of a desk's events, read page by page.

ghost use Rattle.acd_book.specs.BookReads.{Anything};
ghost use Rattle.acd_desk.specs.Reads.DeskReads.{DeskRead};
ghost use Rattle.acd_desk.specs.Reads.ReadAnswers.{WritesPage, IsExport};

use crate::desk::Desk;
use crate::fault::DeskFault;
use crate::working::Working;
use acd_book::Book;
use acd_reports::{events_page, export_header};

// So many events are read at a time.
const PAGE: usize = 1000;

impl<B: Book> Desk<B> {
    // It hasn't failed.
    fn still_works(&mut self) -> Result<(), DeskFault>
        ensures { DeskRead B.Book self.old self.new result Anything }
    {
        if let Working::Failed = self.working {
            return Err(DeskFault::StoreFault);
        }
        Ok(())
    }

    // Writes the records of the first events above a number, and gives the number of the last one. Where it gives
    // none, there are no more.
    fn export_page(&mut self, export: &mut String, after: u64) -> Result<Option<u64>, DeskFault>
        ensures { DeskRead B.Book self.old self.new result
            (WritesPage export.old export.new after) }
    {
        let events = self.first_events(after, PAGE)?;
        let last = match events.last() {
            None => return Ok(None),
            Some(last) => last.number,
        };
        export.push_str(&events_page(self.alloc, &events)?)?;
        Ok(Some(last))
    }

    /// All events in CSV, in ascending number. There always is an export. Beside its text it holds a page of the
    /// events at a time.
    pub fn export(&mut self) -> Result<Option<String>, DeskFault>
        ensures { DeskRead B.Book self.old self.new result IsExport }
    {
        self.still_works()?;
        let mut export = String::from_str(self.alloc, export_header())?;
        let mut after = 0;
        for _ in 0..u64::MAX {
            let next = match self.export_page(&mut export, after) {
                Ok(next) => next,
                Err(fault) => return Err(fault),
            };
            match next {
                None => return Ok(Some(export)),
                Some(last) => after = last,
            }
        }
        Err(DeskFault::NoMemory)
    }
}
