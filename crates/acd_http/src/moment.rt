//! The moment of the clock.

ghost use Rattle.std.specs.Prelude.{◌≡◌, min};

use std::time::{Clock, SystemTime, UNIX_EPOCH};

fn moment_of(seconds: u64) -> u32
    ensures { result ≡ min seconds 4294967295 }
{
    u32::try_from(seconds).unwrap_or(u32::MAX)
}

/// The seconds since 1970, cut to the range of a moment; 0 where there is no clock.
pub(crate) fn moment_now(clock: &impl Clock) -> u32 {
    let Ok(now) = SystemTime::now(clock) else {
        return 0;
    };
    match now.duration_since(UNIX_EPOCH) {
        Ok(since) => moment_of(since.as_secs()),
        Err(_) => 0,
    }
}
