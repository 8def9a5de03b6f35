//! The bytes that come before the order.

ghost use Rattle.std.specs.Prelude.{◌≡◌, ◌≤◌, ◌<◌, ◌&&◌, true, length};
ghost use Rattle.acd_io.specs.Order.{is_held, PassesOrder};

use crate::order::stops;

/// How many of these bytes, and no more than `most`, are given on; and whether the byte after them begins a line. They come
/// before a line that is an order, or may become one, unless the input has ended.
pub(crate) fn passed(bytes: &[u8], starts: bool, most: usize, ended: bool) -> (usize, bool)
    requires { most ≤ length bytes.now }
    ensures within { result.0 ≤ most }
    ensures passes { PassesOrder ended starts bytes.now result }
    // none is given on only where the order is first
    ensures held { 0 < most → result.0 ≡ 0 → (starts && is_held ended bytes.now) ≡ true }
{
    let mut line = starts;
    for i in 0..most {
        if stops(line, &bytes[i..], ended) {
            return (i, line);
        }
        line = bytes[i] == b'\n';
    }
    (most, line)
}
