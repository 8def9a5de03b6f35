//! The moment at the head of a line.

ghost use Rattle.std.specs.Prelude.{◌≡◌, option_map};
ghost use Rattle.acd_lines.specs.Input.{moment_of_digits, moment_of};

use crate::split::split_once;
use acd_io::number_up_to;

/// How many digits a moment has at most.
const DIGITS: usize = 10;

fn moment_of_digits(digits: &[u8]) -> Option<u32>
    ensures { result ≡ moment_of_digits digits.now }
{
    if digits.len() > DIGITS {
        return None;
    }
    let number = number_up_to(digits)?;
    u32::try_from(number).ok()
}

/// The moment, and the rest after its space.
pub(crate) fn moment_of(text: &[u8]) -> Option<(u32, &[u8])>
    ensures { option_map (λ p. (p.0, p.1.now)) result ≡ moment_of text.now }
{
    let (front, json) = split_once(text, b' ')?;
    let moment = moment_of_digits(front)?;
    Some((moment, json))
}
