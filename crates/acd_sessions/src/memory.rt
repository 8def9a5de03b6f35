//! A desk in memory, whose replies last as long as the program runs.

ghost use Rattle.std.specs.Prelude.{IfOk};
ghost use Rattle.acd_desk.specs.Desks.DeskCalls.{state_of};
ghost use Rattle.acd_sessions.specs.MemoryAnswers.{in_memory, IsNewDesk};
ghost use Rattle.acd_lines.specs.Questions.{TakesTurns};
ghost use Rattle.acd_sessions.specs.LinesOver.{LinesInMemory};
ghost use Rattle.acd_lines.specs.Lines.{streamed};

use acd_book::MemoryBook;
use acd_desk::{Desk, OpenFault};
use acd_lines::{Answering, LinesFault, answer_lines};
use acd_terms::Limits;
use std::alloc::{AllocError, Global};
use std::io::{Read, Write};

/// A desk over a new book in memory, with the greatest limits.
#[tactic(auto, using(acd_desk::proofs::Contents::ContentLaws::empty_sound), unfolding(acd_terms::specs::Limits::limits_fit))]
pub fn new_desk(alloc: Global) -> Result<Desk<MemoryBook>, AllocError>
    ensures { IfOk result (λ d. IsNewDesk (state_of in_memory d)) }
{
    match Desk::open(alloc, MemoryBook::new(alloc, Limits::GREATEST)) {
        Ok(desk) => Ok(desk),
        Err((OpenFault::NoMemory, _)) => Err(AllocError),
        // its rows break no rule
        Err((OpenFault::Rows(_), _)) => unreachable!(),
        // and it has no store
        Err((OpenFault::Store, _)) => unreachable!(),
    }
}

/// Answers lines over such a desk.
pub fn lines_over_memory<A: Answering<MemoryBook>, R: Read, W: Write>(
    alloc: Global,
    lines: &mut A,
    reader: &mut R,
    writer: &mut W,
) -> Result<(), LinesFault>
    ensures { LinesInMemory (TakesTurns A.Answering)
        (streamed R.Read W.Write reader writer) result }
{
    let mut desk = new_desk(alloc)?;
    answer_lines(alloc, lines, &mut desk, false, reader, writer)
}
