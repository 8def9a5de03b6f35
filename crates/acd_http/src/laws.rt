//! Laws of the definitions. Each law is the contract of a function with an empty body.

ghost use Rattle.acd_desk.specs.Desks.DeskState.{state_of};
ghost use Rattle.acd_http.specs.Laws.{AsksOneThing, AsksByABeginning, PhrasesAreCanonical};
ghost use Rattle.acd_http.specs.ConnectionRequests.{LeadsToTheRun};
ghost use Rattle.acd_http.specs.TurnRequests.{TurnsLeadToTheRun};
ghost use Rattle.acd_http.specs.LinesWithReads.{LinesLeadToTheRun, ReadsAnswerByTheContent, ReadsAnswerByTheRun};

use acd_book::Book;

/// Bytes ask one thing.
pub fn asks_one_thing()
    ensures { AsksOneThing }
{}

/// Bytes ask the same question whatever follows them, where they aren't truncated.
pub fn asks_by_a_beginning()
    ensures { AsksByABeginning }
{}

/// The phrases are those that the crate `http` gives.
pub fn phrases_are_canonical()
    ensures { PhrasesAreCanonical }
{}

/// Connections that were answered one after another leave the desk as a run of the requests that they brought leaves
/// it, whatever was read between them: each reply is that of the abstract desk at its place, and so is what the book
/// holds, and what a stop leaves of it.
pub fn connections_lead_to_the_run<B: Book>()
    ensures { LeadsToTheRun (state_of B.Book) }
{}

/// So do connections with looks at the clock between them: the requests that came, and the ticks that the desk added, are
/// one run, in the order in which it took them.
pub fn turns_lead_to_the_run<B: Book>()
    ensures { TurnsLeadToTheRun (state_of B.Book) }
{}

/// Lines leave the desk as a run of the requests among them leaves it, whatever was read between these; and a read
/// answers from the run of the requests before it, by the same definitions as a GET of its target.
pub fn reads_answer_by_the_run<B: Book>()
    ensures run { LinesLeadToTheRun (state_of B.Book) }
    ensures content { ReadsAnswerByTheContent (state_of B.Book) }
    ensures reads { ReadsAnswerByTheRun (state_of B.Book) }
{}
