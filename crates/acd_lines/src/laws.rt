//! Laws of the definitions. The law is the contract of a function with an empty body.

ghost use Rattle.acd_lines.specs.Laws.{RequestsRun};

use acd_book::Book;

/// Requests that were answered in turn are a run of the desk over the arrivals among their lines.
pub fn requests_run<B: Book>()
    ensures { RequestsRun B.Book }
{}
