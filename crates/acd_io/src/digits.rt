//! The number that digits write.

ghost use Rattle.std.specs.Prelude.{◌≡◌, ◌≤◌, min, IfSome};
ghost use Rattle.acd_io.specs.Digits.{number_up_to};

/// The limit to which a number is cut.
const GREATEST: u64 = 1_000_000_000_000_000;

fn cut(number: u64) -> u64
    ensures { result ≡ min 1000000000000000 number }
{
    number.min(GREATEST)
}

/// The number that one or more digits write, or 10^15 where it is greater.
pub fn number_up_to(digits: &[u8]) -> Option<u64>
    ensures value { result ≡ number_up_to digits.now }
    ensures small { IfSome result (λ n. n ≤ 1000000000000000) }
{
    if digits.is_empty() {
        return None;
    }
    let mut number = 0u64;
    for digit in digits {
        if !digit.is_ascii_digit() {
            return None;
        }
        number = cut(number * 10 + u64::from(*digit - b'0'));
    }
    Some(number)
}
