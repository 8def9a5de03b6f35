//! The audit of a desk: its book's content, against the replay of its kept requests.

ghost use Rattle.acd_desk.specs.Desks.DeskState.{book_of};
ghost use Rattle.acd_desk.specs.Reads.DeskReads.{DeskRead};
ghost use Rattle.acd_desk.specs.Audits.Audit.{IsAudited, FindsSound};
ghost use Rattle.acd_book.specs.BookReads.{Anything, MayRead};
ghost use Rattle.std.specs.Prelude.{◌≡◌};
ghost use Rattle.acd_desk.specs.Audits.ArchiveAudits.{desk_part, archived_part, pair_fault, left_by_pair, IsAuditedWith};

use crate::desk::Desk;
use crate::fault::DeskFault;
use crate::open_fault::OpenFault;
use crate::pair::{Pair, PairFault};
use crate::progress::Progress;
use crate::replay::audited;
use crate::working::Working;
use acd_book::Book;
use thiserror::Error;

/// The answer of an audit.
#[derive(Clone, Copy, Debug, PartialEq, Eq)]
pub enum Audit {
    /// All that is kept is what the kept requests give.
    Sound,
    /// The first place in the kept list, from 1, whose record or events are not what the kept requests give; or the
    /// place after the list, where only the tables or events that belong to none are not.
    Differs(u64),
}

/// The answer of an audit with an archive.
#[derive(Clone, Copy, Debug, PartialEq, Eq)]
pub enum ArchiveAudit {
    /// The book begins with the archive's last records, and the rest is what its newer requests make of the archive's
    /// state.
    Sound,
    /// The same, but that requests were sent again whose records were left in the archive: they were executed once more.
    /// The stamp of the first of these.
    SentAgain(u64),
    /// A stamp at which the book is neither: up to the archive's last one, its records or events are not the archive's;
    /// above it, the first whose record or events are not what its request gives, or the stamp after the last one, where
    /// only the tables or events that belong to none are not.
    Differs(u64),
}

/// Why an audit with an archive gave no answer.
#[derive(Clone, Copy, Debug, PartialEq, Eq, Error)]
pub enum AuditFault {
    /// The desk gave none.
    #[error("the desk gave no answer")]
    Desk(DeskFault),
    /// Its archive gave none, or the archive's rows break a rule.
    #[error("the archive gave no answer")]
    Archive(OpenFault),
}

impl<B: Book> Desk<B> {
    /// Runs the kept requests again, each at the moment that its record holds, and compares what they give
    /// with what the book holds. It changes nothing, and its memory doesn't grow with the number of requests.
    pub fn audit<P: Progress>(&mut self, progress: &mut P) -> Result<Audit, DeskFault>
        ensures read { DeskRead B.Book self.old self.new result Anything }
        ensures audited { IsAudited (B.state (book_of self.old))
            (B.state (book_of self.new)) result }
        ensures sound { FindsSound (B.state (book_of self.old))
            (B.state (book_of self.new)) result }
    {
        if let Working::Failed = self.working {
            return Err(DeskFault::StoreFault);
        }
        match audited(self.alloc, &mut self.book, progress) {
            Ok(audit) => Ok(audit),
            Err(fault) => Err(self.failed(fault)),
        }
    }

    /// The same for a desk that was carried over, with the archive that it goes on from: up to the archive's last stamp
    /// its records have to be those of the archive, and the newer ones are run again from the archive's state on. It
    /// changes nothing in either.
    pub fn audit_with<A: Book, P: Progress>(
        &mut self,
        archive: &mut A,
        progress: &mut P,
    ) -> Result<ArchiveAudit, AuditFault>
        ensures read { DeskRead B.Book self.old self.new (desk_part result) Anything }
        ensures archive { MayRead A.state archive.old archive.new (archived_part result) Anything }
        ensures audited { IsAuditedWith (A.state archive.old) (A.state archive.new)
            (B.state (book_of self.old)) (B.state (book_of self.new)) result }
    {
        if self.has_failed() {
            return Err(AuditFault::Desk(DeskFault::StoreFault));
        }
        let mut pair = Pair {
            archive,
            book: &mut self.book,
        };
        match pair.audited(self.alloc, progress) {
            Ok(audit) => Ok(audit),
            Err(fault) => Err(self.pair_failed(fault)),
        }
    }

    // A fault of either as a fault of the audit: where the desk's store has failed, the desk has.
    fn pair_failed(&mut self, fault: PairFault) -> AuditFault
        ensures fault { result ≡ pair_fault fault }
        ensures left { self.new
            ≡ record self.old { working = left_by_pair fault self.old.working } }
    {
        match fault {
            PairFault::Current(fault) => AuditFault::Desk(self.failed(fault)),
            PairFault::Archive(fault) => AuditFault::Archive(fault),
        }
    }
}
