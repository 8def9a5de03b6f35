//! The audit of a desk, with the number of executed requests where that is asked for. A terminal shows how far it has
//! come.

ghost use Rattle.std.specs.Prelude.{◌≡◌, IfOk};
ghost use Rattle.acd_desk.specs.Audits.ArchiveAudits.{desk_part, archived_part};
ghost use Rattle.acd_book.specs.BookReads.{Anything, MayRead};
ghost use Rattle.acd_desk.specs.Reads.DeskReads.{DeskRead};
ghost use Rattle.acd_program.specs.Archives.WithArchive.{uncounted_with, counted_with, FindsWith};
ghost use Rattle.acd_program.specs.Commands.AuditFindings.{AuditsDesk, HasCount};

use crate::progress::ProgressLine;
use acd_book::Book;
use acd_desk::{ArchiveAudit, Audit, AuditFault, Desk, DeskFault};

/// The finding of an audit.
#[derive(Clone, Copy, Debug, PartialEq, Eq)]
pub(crate) enum Finding {
    Sound,
    /// Sound, and how many requests were executed.
    Counted(u64),
    /// Sound beside its archive, but that requests were sent again which were left there: the stamp of the first of them.
    SentAgain(u64),
    /// The same, and how many requests were executed.
    SentAgainCounted(u64, u64),
    /// The first request whose record or events differ.
    Differs(u64),
}

/// Audits what the desk's book holds.
pub(crate) fn audited<B: Book>(
    rt: &HostRuntime,
    desk: &mut Desk<B>,
    counts: bool,
) -> Result<Finding, DeskFault>
    ensures found { AuditsDesk B.Book desk.old desk.new result }
    ensures read { DeskRead B.Book desk.old desk.new result Anything }
    ensures counted { IfOk result (HasCount counts) }
{
    let count = desk.executed()?;
    let mut line = ProgressLine::new(rt, count);
    let read = desk.audit(&mut line);
    line.end();
    match read? {
        Audit::Sound if counts => Ok(Finding::Counted(count)),
        Audit::Sound => Ok(Finding::Sound),
        Audit::Differs(place) => {
            line.advise();
            Ok(Finding::Differs(place))
        }
    }
}

fn uncounted_with(audit: ArchiveAudit) -> Finding
    ensures { result ≡ uncounted_with audit }
{
    match audit {
        ArchiveAudit::Sound => Finding::Sound,
        ArchiveAudit::SentAgain(stamp) => Finding::SentAgain(stamp),
        ArchiveAudit::Differs(place) => Finding::Differs(place),
    }
}

fn counted_with(audit: ArchiveAudit, count: u64) -> Finding
    ensures { result ≡ counted_with audit count }
{
    match audit {
        ArchiveAudit::Sound => Finding::Counted(count),
        ArchiveAudit::SentAgain(stamp) => Finding::SentAgainCounted(stamp, count),
        ArchiveAudit::Differs(place) => Finding::Differs(place),
    }
}

/// Audits what the desk's book holds with the archive that it goes on from.
pub(crate) fn audited_with_archive<A: Book, B: Book>(
    rt: &HostRuntime,
    desk: &mut Desk<B>,
    archive: &mut A,
    counts: bool,
) -> Result<Finding, AuditFault>
    ensures found { FindsWith A.Book (archive.old, archive.new) B.Book (desk.old, desk.new) result }
    ensures read { DeskRead B.Book desk.old desk.new (desk_part result) Anything }
    ensures archive { MayRead A.state archive.old archive.new (archived_part result) Anything }
    ensures counted { IfOk result (HasCount counts) }
{
    let count = match desk.executed() {
        Ok(count) => count,
        Err(fault) => return Err(AuditFault::Desk(fault)),
    };
    let mut line = ProgressLine::new(rt, count);
    let read = desk.audit_with(archive, &mut line);
    line.end();
    let read = read?;
    if counts {
        Ok(counted_with(read, count))
    } else {
        Ok(uncounted_with(read))
    }
}
