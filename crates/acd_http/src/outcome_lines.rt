//! The lines that report the faults of connections.

ghost use Rattle.std.specs.Prelude.{◌≡◌, ◌≤◌, length, Err};
ghost use Rattle.acd_io.specs.SentBytes.{Sends};
ghost use Rattle.acd_lines.specs.Lines.{written};
ghost use Rattle.acd_http.specs.ConnectionsInTurn.{PrintsText, fault_text, outcome_line};

use crate::exchanging::ExchangeFault;
use crate::head_text::HeadText;
use acd_io::{Stopped, most_calls, send};
use itoa::Buffer;
use std::io::Write;

fn fault_text(fault: ExchangeFault) -> &'static [u8]
    ensures value { result.now ≡ fault_text fault }
    ensures short { length result.now ≤ 9 }
{
    match fault {
        ExchangeFault::Truncated => b"truncated",
        ExchangeFault::Read => b"read",
        ExchangeFault::Write => b"write",
        ExchangeFault::NoMemory => b"no memory",
    }
}

#[tactic(auto, unfolding(crate::specs::ConnectionsInTurn::outcome_line))]
fn fault_line(number: u64, fault: ExchangeFault) -> HeadText
    ensures { result ≡ outcome_line number (Err fault) }
{
    let mut digits = Buffer::new();
    let mut line = HeadText::new();
    line.push(b"acd: connection ");
    line.push(digits.format(number).as_bytes());
    line.push(b": ");
    line.push(fault_text(fault));
    line.push(b"\n");
    line
}

// Writes the line of a connection, where there is one.
#[tactic(auto, unfolding(crate::specs::ConnectionsInTurn::outcome_line))]
fn print_outcome<E: Write>(
    errors: &mut E,
    number: u64,
    outcome: Result<(), ExchangeFault>,
) -> Result<(), Stopped>
    ensures { Sends E.contents errors.old errors.new result (outcome_line number outcome) }
{
    match outcome {
        Ok(()) => Ok(()),
        Err(fault) => {
            let mut calls = most_calls();
            let line = fault_line(number, fault);
            send(errors, &mut calls, line.as_slice())
        }
    }
}

/// Writes the line of a connection, where there is one, unless a line before it could not be written.
pub(crate) fn print_next<E: Write>(
    printed: Result<(), Stopped>,
    errors: &mut E,
    number: u64,
    outcome: Result<(), ExchangeFault>,
) -> Result<(), Stopped>
    ensures { PrintsText (outcome_line number outcome) printed (written E.Write errors) result }
{
    printed?;
    print_outcome(errors, number, outcome)
}
