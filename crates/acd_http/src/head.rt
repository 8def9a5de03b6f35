//! The end of the head of a request, and how many lines it has.

ghost use Rattle.std.specs.Prelude.{◌≡◌, ◌≤◌, length};
ghost use Rattle.acd_http.specs.Head.{head_len, lines_in};

/// The place of the next byte in its line.
#[derive(Clone, Copy, Debug, PartialEq, Eq)]
pub(crate) enum Place {
    /// At its start.
    Start,
    /// After one carriage return, which is all of it so far.
    Return,
    /// After more than that.
    Other,
}

impl Place {
    ghost use Rattle.std.specs.Prelude.{◌≡◌};
    ghost use Rattle.acd_http.specs.Head.{is_empty_at, head_place_after};

    // Whether a line that ends here is empty.
    fn is_empty(self) -> bool
        ensures { result ≡ is_empty_at self }
    {
        match self {
            Place::Start | Place::Return => true,
            Place::Other => false,
        }
    }

    fn after(self, byte: u8) -> Place
        ensures { result ≡ head_place_after self byte }
    {
        match self {
            Place::Start => {
                if byte == b'\r' {
                    Place::Return
                } else {
                    Place::Other
                }
            }
            Place::Return | Place::Other => Place::Other,
        }
    }
}

/// The length of the head, where it has come whole: up to and with the first empty line after one that isn't empty.
pub(crate) fn head_len(bytes: &[u8]) -> Option<usize>
    ensures { result ≡ head_len bytes.now }
{
    let mut some = false;
    let mut place = Place::Start;
    for i in 0..bytes.len() {
        let byte = bytes[i];
        if byte != b'\n' {
            place = place.after(byte);
        } else {
            if place.is_empty() {
                if some {
                    return Some(i + 1);
                }
            } else {
                some = true;
            }
            place = Place::Start;
        }
    }
    None
}

/// How many lines that aren't empty end in the bytes.
pub(crate) fn lines_in(bytes: &[u8]) -> usize
    ensures value { result ≡ lines_in bytes.now }
    ensures small { result ≤ length bytes.now }
{
    let mut lines = 0;
    let mut place = Place::Start;
    for byte in bytes {
        if *byte != b'\n' {
            place = place.after(*byte);
        } else {
            if !place.is_empty() {
                lines += 1;
            }
            place = Place::Start;
        }
    }
    lines
}
