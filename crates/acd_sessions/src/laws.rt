//! Laws of the definitions. Each law is the contract of a function, whose body names only the laws that it depends on.

ghost use Rattle.sqlite_std_file.specs.File.{IsFresh};
ghost use Rattle.acd_sessions.specs.Reopening.{BooksMakeDesks, ClosedOpens, FreshAreSynced, LeftOpens};
ghost use Rattle.acd_sessions.specs.Sessions.{LinesAreSessions, LinesAreFromNothing};
ghost use Rattle.acd_sessions.specs.Standby.{StandbyLeadsToTheRun};
ghost use Rattle.acd_desk.specs.Desks.DeskState.{state_of};

use acd_book::{Book, MemoryBook};
use acd_http::laws::reads_answer_by_the_run;
use acd_lines::laws::requests_run;
use acd_sqlbook::SqlBook;
use sqlite::Alter;
use sqlite_disk::{Disk, Start};
use sqlite_std_file::FileFrom;
use std::io::{Read, Write};

/// Where lines ask for services alone, the answers over a database are a session over what it held, or over a new book:
/// whole, or its beginning where reading, writing or a storeFault ended it.
pub fn lines_are_sessions<S: Alter, R: Read, W: Write>()
    ensures { LinesAreSessions S.Store R.remaining W.contents }
{
    requests_run::<SqlBook<S>>();
}

/// Where they do, the answers over a new desk in memory are those of the abstract desk: to all lines, or to the first
/// of them where a fault ended it.
pub fn lines_are_from_nothing<R: Read, W: Write>()
    ensures { LinesAreFromNothing R.remaining W.contents }
{
    requests_run::<MemoryBook>();
}

/// Over a database that reopens with a content a book of that content is adopted, or memory lacks or the store fails.
/// Where the content is sound a desk over it holds its rows, and is never refused by a rule.
pub fn books_make_desks<S: Alter>()
    ensures { BooksMakeDesks S.Store }
{}

/// Whatever a crash leaves of the files of a connection that leaves books opens in a later run as a book of a content
/// that it may leave: what the files hold is never why that fails.
pub fn left_opens<D: Disk, E: Disk>()
    ensures { LeftOpens D.Disk E.Disk }
{}

/// Whatever a crash leaves of files into which such a connection was closed opens as a book of its last commit, with
/// the log or without it.
pub fn closed_opens<D: Disk, E: Disk>()
    ensures { ClosedOpens D.Disk E.Disk }
{}

/// Two files that were just opened read as what they held, and a crash leaves nothing else of them.
pub fn fresh_are_synced<S: Start>()
    ensures { FreshAreSynced ⟦<FileFrom<S> as Disk>⟧ IsFresh S.Start }
{}

/// The lines that a standby answers before its order, and the connections and ticks after it, are one run of one desk, in
/// the order in which it took them.
pub fn standby_leads_to_the_run<B: Book>()
    ensures { StandbyLeadsToTheRun (state_of B.Book) }
{
    reads_answer_by_the_run::<B>();
}
