//! How faults are said that no line of the program has.

use acd_codec::ReadFault;
use acd_reports::PlanFault;
use acd_terms::{IdFault, NameFault};
use std::alloc::Global;
use std::fmt::Display;
use std::process::Abort;

fn says(rt: &impl Abort, alloc: Global, fault: &impl Display, words: &str) {
    let said = format!(in alloc; "{fault}").expect(rt, "memory");
    assert_eq!(rt; said.as_str(), words);
}

#[test]
fn faults_in_words(rt: HostRuntime) {
    let alloc = rt.alloc();
    for (fault, words) in [
        (IdFault::Empty, "no digits"),
        (IdFault::TooLong, "too many digits"),
        (IdFault::NotDigit(14), "no digit at byte 14"),
    ] {
        says(&rt, alloc, &fault, words);
    }
    for (fault, words) in [
        (NameFault::Empty, "no characters"),
        (NameFault::TooLong, "too many characters"),
        (NameFault::BadCharacter(3), "byte 3 may not stand there"),
    ] {
        says(&rt, alloc, &fault, words);
    }
    says(&rt, alloc, &ReadFault::NoMemory, "out of memory");
    says(&rt, alloc, &PlanFault::NoMemory, "no memory");
}
