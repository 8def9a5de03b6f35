//! The printing of what is left of the work.

ghost use Rattle.std.specs.Prelude.{◌≡◌, OnOk, OnErr, IfOk};
ghost use Rattle.acd_io.specs.SentBytes.{Sends};
ghost use Rattle.acd_program.specs.Commands.AuditFindings.{sound_line, counted_line, again_line, again_counted_line, finding_line, cut_line, nothing_line, pruning_line};
ghost use Rattle.acd_lines.specs.Lines.{output};
ghost use Rattle.acd_program.specs.Statuses.{sound_status, again_status, finding_status, pruning_status};
ghost use Rattle.acd_program.specs.Commands.Work.{text_left, status_left, PrintsAll, PrintsPart};

use crate::auditing::Finding;
use crate::desk::Done;
use crate::outcome::{Cut, Pruning};
use crate::status::Status;
use acd_io::{Stopped, send};
use acd_log::Ending;
use acd_sessions::{WorkFault, send_between, send_number};
use std::io::Write;

// How often the writer is called at most.
const CALLS: u64 = u64::MAX;

// The line of a sound desk, of whose file the log ended so.
fn sound_line(ending: Ending) -> &'static str
    ensures { result.now ≡ sound_line ending }
{
    match ending {
        Ending::Plain => "sound\n",
        Ending::Early => "sound, but its log ends early\n",
        Ending::Headless => "sound, but the head of its log can't be read\n",
    }
}

// Writes that, and how many requests were executed.
fn send_counted<W: Write>(ending: Ending, count: u64, writer: &mut W) -> Result<(), Stopped>
    ensures { Sends W.contents writer.old writer.new result (counted_line ending count) }
{
    let mut calls = CALLS;
    send(writer, &mut calls, sound_line(ending).as_bytes())?;
    send_number(writer, b"executed ", count)
}

// Writes the line of a desk that is sound but for a request that was sent again; a log that ends early comes first.
fn send_again<W: Write>(ending: Ending, stamp: u64, writer: &mut W) -> Result<(), Stopped>
    ensures { Sends W.contents writer.old writer.new result (again_line ending stamp) }
{
    let mut calls = CALLS;
    match ending {
        Ending::Plain => send_between(writer, b"sound, but request ", stamp, b" was sent again\n"),
        Ending::Early => send(writer, &mut calls, sound_line(ending).as_bytes()),
        Ending::Headless => send(writer, &mut calls, sound_line(ending).as_bytes()),
    }
}

// Writes that, and how many requests were executed.
fn send_again_counted<W: Write>(
    ending: Ending,
    stamp: u64,
    count: u64,
    writer: &mut W,
) -> Result<(), Stopped>
    ensures { Sends W.contents writer.old writer.new result
        (again_counted_line ending stamp count) }
{
    send_again(ending, stamp, writer)?;
    send_number(writer, b"executed ", count)
}

// Writes the finding of an audit, as a line or two.
fn send_finding<W: Write>(found: Finding, ending: Ending, writer: &mut W) -> Result<(), Stopped>
    ensures { Sends W.contents writer.old writer.new result (finding_line ending found) }
{
    let mut calls = CALLS;
    match found {
        Finding::Sound => send(writer, &mut calls, sound_line(ending).as_bytes()),
        Finding::Counted(count) => send_counted(ending, count, writer),
        Finding::SentAgain(stamp) => send_again(ending, stamp, writer),
        Finding::SentAgainCounted(stamp, count) => {
            send_again_counted(ending, stamp, count, writer)
        }
        Finding::Differs(place) => send_number(writer, b"differs at request ", place),
    }
}

// Writes up to which record a prune went, and whether there is more to go.
fn send_cut<W: Write>(cut: Cut, writer: &mut W) -> Result<(), Stopped>
    ensures { Sends W.contents writer.old writer.new result (cut_line cut) }
{
    if cut.is_part {
        return send_between(
            writer,
            b"pruned up to request ",
            cut.stamp,
            b", more to go\n",
        );
    }
    send_number(writer, b"pruned up to request ", cut.stamp)
}

// Writes that there was nothing to prune, unless it is to be quiet.
fn send_nothing<W: Write>(quiet: bool, writer: &mut W) -> Result<(), Stopped>
    ensures { Sends W.contents writer.old writer.new result (nothing_line quiet) }
{
    let mut calls = CALLS;
    if quiet {
        return Ok(());
    }
    send(writer, &mut calls, b"nothing to prune\n")
}

// Writes what came of a prune, as a line or none.
fn send_pruning<W: Write>(pruning: Pruning, quiet: bool, writer: &mut W) -> Result<(), Stopped>
    ensures { Sends W.contents writer.old writer.new result (pruning_line quiet pruning) }
{
    match pruning {
        Pruning::Refused(found, ending) => send_finding(found, ending, writer),
        Pruning::Nothing => send_nothing(quiet, writer),
        Pruning::UpTo(cut) => send_cut(cut, writer),
    }
}

fn send_left<W: Write>(left: &Done, writer: &mut W) -> Result<(), Stopped>
    ensures { Sends W.contents writer.old writer.new result (text_left left.now) }
{
    let mut calls = CALLS;
    match left {
        Done::Nothing => Ok(()),
        Done::Text(text) => send(writer, &mut calls, text.as_bytes()),
        Done::Audited(found, ending) => send_finding(*found, *ending, writer),
        Done::Pruned(pruning, quiet) => send_pruning(*pruning, *quiet, writer),
    }
}

// The exit status of a sound desk, of whose file the log ended so.
fn sound_status(ending: Ending) -> Status
    ensures { result ≡ sound_status ending }
{
    match ending {
        Ending::Plain => Status::Success,
        Ending::Early => Status::EndsEarly,
        Ending::Headless => Status::EndsEarly,
    }
}

// The exit status of one that is sound but for a request that was sent again.
fn again_status(ending: Ending) -> Status
    ensures { result ≡ again_status ending }
{
    match ending {
        Ending::Plain => Status::SentAgain,
        Ending::Early => sound_status(ending),
        Ending::Headless => sound_status(ending),
    }
}

// The exit status of an audit's finding. A difference is no fault.
fn status_of(found: Finding, ending: Ending) -> Status
    ensures { result ≡ finding_status ending found }
{
    match found {
        Finding::Sound => sound_status(ending),
        Finding::Counted(_) => sound_status(ending),
        Finding::SentAgain(_) => again_status(ending),
        Finding::SentAgainCounted(_, _) => again_status(ending),
        Finding::Differs(_) => Status::Differs,
    }
}

// That of a prune: one that an audit refuses has the audit's.
fn pruning_status(pruning: Pruning) -> Status
    ensures { result ≡ pruning_status pruning }
{
    match pruning {
        Pruning::Refused(found, ending) => status_of(found, ending),
        Pruning::Nothing => Status::Success,
        Pruning::UpTo(_) => Status::Success,
    }
}

fn status_left(left: &Done) -> Status
    ensures { result ≡ status_left left.now }
{
    match left {
        Done::Nothing => Status::Success,
        Done::Text(_) => Status::Success,
        Done::Audited(found, ending) => status_of(*found, *ending),
        Done::Pruned(pruning, _) => pruning_status(*pruning),
    }
}

/// Prints what is left of the work, and gives the exit status.
pub(crate) fn print<W: Write>(left: &Done, writer: &mut W) -> Result<Status, WorkFault>
    ensures status { IfOk result (λ status. status ≡ status_left left.now) }
    ensures ok { OnOk result (PrintsAll left.now (output W.contents writer.old writer.new)) }
    // where the writer failed, a beginning of it and not all
    ensures short { OnErr result (PrintsPart left.now (output W.contents writer.old writer.new)) }
{
    match send_left(left, writer) {
        Ok(()) => Ok(status_left(left)),
        Err(Stopped) => Err(WorkFault::Write),
    }
}
