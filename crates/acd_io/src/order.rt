//! The order to serve, at the beginning of some bytes.

ghost use Rattle.std.specs.Prelude.{◌≡◌, ◌≤◌, ◌&&◌, length, IsTrue};
ghost use Rattle.acd_io.specs.Order.{begins_order, is_beginning, is_held};

/// The order, and the same with a carriage return before its line feed.
const ORDER: &[u8] = b"serve\n";

const ORDER_AND_RETURN: &[u8] = b"serve\r\n";

/// Whether an order is the first of these bytes.
pub(crate) fn begins_order(bytes: &[u8]) -> bool
    ensures { result ≡ begins_order bytes.now }
{
    bytes.starts_with(ORDER) || bytes.starts_with(ORDER_AND_RETURN)
}

/// Whether they are the first bytes of one.
pub(crate) fn is_beginning(bytes: &[u8]) -> bool
    ensures value { result ≡ is_beginning bytes.now }
    ensures short { IsTrue result → length bytes.now ≤ 7 }
{
    ORDER.starts_with(bytes) || ORDER_AND_RETURN.starts_with(bytes)
}

// Whether bytes that begin a line aren't given on: they are an order, or may become one, unless the input has ended.
fn is_held(bytes: &[u8], ended: bool) -> bool
    ensures { result ≡ is_held ended bytes.now }
{
    begins_order(bytes) || (!ended && is_beginning(bytes))
}

/// Whether they aren't, where they begin a line.
pub(crate) fn stops(starts: bool, bytes: &[u8], ended: bool) -> bool
    ensures { result ≡ (starts && is_held ended bytes.now) }
{
    starts && is_held(bytes, ended)
}
