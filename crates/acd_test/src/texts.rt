//! Texts that are bytes: of a long text a proof takes long to show that it is one.

use std::process::Abort;

/// The text of these bytes.
pub fn text_in<'a>(rt: &impl Abort, bytes: &'a [u8]) -> &'a str {
    str::from_utf8(bytes).expect(rt, "a text")
}
