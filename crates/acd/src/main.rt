//! The desk of a help line as a program: it reads its words, and [`acd_program::program`] does what they ask for.
#![tactic(auto)]

use acd_program::program;
use std::process::ExitCode;
use std::{env, io};

fn words(rt: &HostRuntime) -> io::Result<Vec<String>> {
    Ok(env::args(rt)?.collect(rt.alloc())?)
}

fn main(rt: HostRuntime) -> ExitCode {
    match words(&rt) {
        Ok(words) => ExitCode::from(program(
            &rt,
            words.as_slice(),
            &mut rt.reader(),
            &mut io::writer(&rt),
            &mut rt.stderr(),
        )),
        Err(e) if e.kind() == io::ErrorKind::OutOfMemory => {
            let _ = eprintln!(rt; "acd: no memory");
            ExitCode::FAILURE
        }
        Err(_) => {
            let _ = eprintln!(rt; "error: a word of the command line is not UTF-8");
            ExitCode::from(2)
        }
    }
}
