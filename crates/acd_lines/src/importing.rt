//! The requests of a plan, and their answer lines.

ghost use Rattle.std.specs.Prelude.{◌≡◌, [], IfErr};
ghost use Rattle.acd_lines.specs.Lines.{PlanAnswered, written};

use crate::answer::execute;
use crate::conversation::push_answer;
use crate::fault::LinesFault;
use crate::outbox::Outbox;
use acd_book::Book;
use acd_desk::Desk;
use acd_terms::Request;
use std::alloc::{AllocError, Global};
use std::io::Write;

// One with room or, for want of memory, one in which nothing waits.
fn new_outbox(alloc: Global) -> Outbox
    ensures { result.waiting.items ≡ [] }
{
    match Outbox::new(alloc) {
        Ok(outbox) => outbox,
        Err(AllocError) => Outbox::unbuffered(alloc),
    }
}

/// Takes each request at moment 0, and writes one answer line for each. Want of memory in a request is
/// its answer, and so is a store that fails: the writer alone ends it early. Calls that are interrupted
/// are made again.
pub fn import<B: Book, W: Write>(
    alloc: Global,
    desk: &mut Desk<B>,
    requests: &[Request],
    writer: &mut W,
) -> Result<(), LinesFault>
    // one answer line for each request, and the desk has run over them; where the writer failed, over a beginning of
    // them, and not all of what was answered was written
    ensures answered { PlanAnswered B.Book desk requests.now (written W.Write writer) result }
    ensures fault { IfErr result (λ fault. fault ≡ LinesFault.Write) }
{
    let mut outbox = new_outbox(alloc);
    for request in requests {
        let answered = execute(desk, 0, request);
        push_answer(&mut outbox, writer, &answered)?;
    }
    outbox.flush(writer)?;
    Ok(())
}
