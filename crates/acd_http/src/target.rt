//! The path and the query of a request's target.

ghost use Rattle.std.specs.Prelude.{◌≡◌, map, take, codes};
ghost use Rattle.std.specs.Char.{to_ascii_lowercase};
ghost use Rattle.std.specs.Str.{bytes_eq};
ghost use Rattle.acd_http.specs.Target.{is_absolute, begins_path, from_path, or_root, before_mark, after_mark, path_of, query_of};

/// How an absolute target begins.
const SCHEME: &[u8] = b"http://";

fn is_absolute(target: &[u8]) -> bool
    ensures { result ≡ is_absolute target.now }
{
    target.len() >= SCHEME.len() && target[..SCHEME.len()].eq_ignore_ascii_case(SCHEME)
}

#[tactic(auto, using(std::proofs::lemmas::Bool::Decides::nat_tests))]
fn begins_path(byte: u8) -> bool
    ensures { result ≡ begins_path byte }
{
    byte == b'/' || byte == b'?'
}

// The bytes from the first slash or question mark on.
fn from_path(bytes: &[u8]) -> &[u8]
    ensures { result.now ≡ from_path bytes.now }
{
    for i in 0..bytes.len() {
        if begins_path(bytes[i]) {
            return &bytes[i..];
        }
    }
    b""
}

// The part before the first question mark, and the part after it.
fn split_at_mark(bytes: &[u8]) -> (&[u8], &[u8])
    ensures before { result.0.now ≡ before_mark bytes.now }
    ensures after { result.1.now ≡ after_mark bytes.now }
{
    for i in 0..bytes.len() {
        if bytes[i] == b'?' {
            return (&bytes[..i], &bytes[i + 1..]);
        }
    }
    (bytes, b"")
}

fn or_root(path: &[u8]) -> &[u8]
    ensures { result.now ≡ or_root path.now }
{
    match path {
        [] => b"/",
        _ => path,
    }
}

/// The path and the query. An absolute target, as proxies send it, loses its scheme and authority; its path
/// is `/` where it has none.
#[tactic(auto, unfolding(crate::specs::Target::path_of, crate::specs::Target::query_of))]
pub(crate) fn path_and_query(target: &[u8]) -> (&[u8], &[u8])
    ensures path { result.0.now ≡ path_of target.now }
    ensures query { result.1.now ≡ query_of target.now }
{
    if !is_absolute(target) {
        return split_at_mark(target);
    }
    let (path, query) = split_at_mark(from_path(&target[SCHEME.len()..]));
    (or_root(path), query)
}
