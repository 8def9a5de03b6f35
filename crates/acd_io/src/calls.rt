//! How often a stream is called.

ghost use Rattle.std.specs.Prelude.{◌≡◌};

/// How often a reader is called at most, and a writer.
pub fn most_calls() -> u64
    ensures { result ≡ 1000000000000 }
{
    1_000_000_000_000
}
