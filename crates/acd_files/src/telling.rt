//! What is told of a file at a terminal before it is opened.

use acd_log::Ending;
use std::io::IsTerminal;

// How many bytes of a file take about a second to look through.
const LONG: u64 = 24_000_000;

/// Says that a file of so many bytes is opened, where that takes a while.
pub(crate) fn announce(rt: &HostRuntime, path: &str, len: u64) {
    if len >= LONG && rt.stderr().is_terminal() {
        let _ = eprintln!(rt; "acd: opening {path}");
    }
}

/// Says what is missing of a file whose log ended so.
pub(crate) fn warn(rt: &HostRuntime, path: &str, ending: Ending) {
    let _ = match ending {
        Ending::Plain => Ok(()),
        Ending::Early => eprintln!(rt;
            "acd: the log of {path} ends early: it is damaged in its middle, and what was answered behind that is missing"
        ),
        Ending::Headless => eprintln!(rt;
            "acd: the head of the log of {path} can't be read, and what was answered in it is missing"
        ),
    };
}
