//! A text that is split once.

ghost use Rattle.std.specs.Option.{MatchOption};
ghost use Rattle.acd_lines.specs.Input.{HasNone, IsSplit};

use memchr::memchr;

/// The part before the first such byte, and the part after it.
pub(crate) fn split_once(text: &[u8], byte: u8) -> Option<(&[u8], &[u8])>
    ensures { MatchOption result (HasNone byte text.now)
        (λ p. IsSplit byte text.now p.0.now p.1.now) }
{
    match memchr(byte, text) {
        Some(place) => Some((&text[..place], &text[place + 1..])),
        None => None,
    }
}
