//! The questions of lines, and how they are answered.

ghost use Rattle.std.specs.Prelude.{◌≡◌, ℕ, List};
ghost use Rattle.acd_codec.specs.declared.member.Member.TheVariants as members;
ghost use Rattle.acd_codec.specs.declared.fault.FixedAnswer.TheVariants as fixes;
ghost use Rattle.acd_desk.specs.declared.desk.Desk.{Desk as DeskOver};
ghost use Rattle.acd_lines.specs.Input.{line_asked};
ghost use Rattle.acd_lines.specs.Answers.{malformed_line, fixed_line, GetsAnswer};

use crate::answer::read;
use crate::moment::moment_of;
use acd_book::Book;
use acd_codec::{FixedAnswer, Member, RequestReader};
use acd_desk::{AnswerText, Desk};
use std::alloc::Global;

// How many bytes after a moment are read at most.
const LONGEST: usize = 4096;

/// The questions to a desk that the lines of an input may ask.
pub trait Answering<B: Book> {
    ghost Asked: { Type 0 };

    // what a line without a moment asks for, one that is longer than is read, and the rest after a moment
    ghost unmarked: { Asked };

    ghost long: { Asked };

    ghost read: { ℕ → List ℕ → Asked };

    // the desk, what was asked of it, the answer line, and the desk after it
    ghost answers: { DeskOver B → Asked → List ℕ → DeskOver B → Type 0 };

    /// The answer to the text after a moment, in at most 4096 bytes.
    fn answer(&mut self, alloc: Global, desk: &mut Desk<B>, moment: u32, text: &[u8]) -> AnswerText
        ensures { GetsAnswer answers desk.old (read moment text.now) result desk.new };

    ghost needs_a_moment: { (d : DeskOver B)
        → answers d unmarked (malformed_line members.Moment) d };

    ghost needs_an_end: { (d : DeskOver B) → answers d long (fixed_line fixes.BodyTooLarge) d };
}

/// The answer to a line, whose line end is left out.
#[tactic(auto, unfolding(crate::specs::Input::line_asked))]
pub(crate) fn answer_line<B: Book, A: Answering<B>>(
    lines: &mut A,
    alloc: Global,
    desk: &mut Desk<B>,
    text: &[u8],
) -> AnswerText
    ensures { GetsAnswer A.answers desk.old (line_asked A.unmarked A.long A.read text.now) result
        desk.new }
{
    let Some((moment, rest)) = moment_of(text) else {
        return AnswerText::malformed(Member::Moment);
    };
    if rest.len() > LONGEST {
        return AnswerText::fixed(FixedAnswer::BodyTooLarge);
    }
    lines.answer(alloc, desk, moment, rest)
}

/// Requests, and nothing else.
#[derive(Drop)]
pub struct Requests {
    reader: RequestReader,
}

impl Requests {
    pub fn new(alloc: Global) -> Requests {
        Requests {
            reader: RequestReader::new(alloc),
        }
    }
}

impl<B: Book> Answering<B> for Requests {
    ghost use Rattle.std.specs.Prelude.{refl};
    ghost use Rattle.acd_desk.specs.Desks.DeskCalls.{state_of};
    ghost use Rattle.acd_lines.specs.Input.{Line, no_moment, too_long, request_read};
    ghost use Rattle.acd_lines.specs.Answers.{Answers};

    ghost Asked = { Line };

    ghost unmarked = { no_moment };

    ghost long = { too_long };

    ghost read = { request_read };

    ghost answers = { Answers (state_of B.Book) };

    ghost needs_a_moment = { λ d. (refl, refl) };

    ghost needs_an_end = { λ d. (refl, refl) };

    fn answer(
        &mut self,
        _alloc: Global,
        desk: &mut Desk<B>,
        moment: u32,
        text: &[u8],
    ) -> AnswerText {
        read(&mut self.reader, desk, moment, text)
    }
}
