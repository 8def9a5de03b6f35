//! A desk over a book that fails: at each of its calls in a short session, and at chosen ones.

use crate::book::{FailingBook, Summed};
use crate::player::wide;
use crate::streams::Pieces;
use crate::texts::text_in;
use acd_book::{Book, MemoryBook};
use acd_desk::Desk;
use acd_lines::lines;
use acd_terms::Limits;
use std::alloc::Global;
use std::process::Abort;

// What fails, the sessions, and what the book then reads. A session is the letters of its lines, at `/` in two readings,
// those of their answers, and how often it was written; or the fault at its opening. A second session is over the book
// that the first one leaves.
//
// A new group, a new station, and the first request again: the book's calls are 1 the rows at the opening; 2 and 3 the
// key of the first request and its commit; 4 and 5 those of the second; 6 the key of the repeat. Where call 5 finds no
// memory, call 6 is the key of the next request, and call 7 its load. At last the lines go on after a store fault.
fn rows() -> &'static [u8] {
    br#"
|gsg=mpm 1|executed 2, groups 1, stations 1, failures 0, reads 1
2:noMemory|gsg=npm 1|executed 2, groups 1, stations 1, failures 0, reads 1
3:noMemory|gsg=npm 1|executed 2, groups 1, stations 1, failures 0, reads 2
4:noMemory|gsg=mnm 1|executed 1, groups 1, stations 0, failures 0, reads 1
5:noMemory|gsg=mnm 1|executed 1, groups 1, stations 0, failures 0, reads 1
6:noMemory|gsg=mpn 1|executed 2, groups 1, stations 1, failures 0, reads 1
2:store|gsg=fff 1;gsg=mpm 1|executed 2, groups 1, stations 1, failures 1, reads 2
3:store|gsg=fff 1;gsg=mpm 1|executed 2, groups 1, stations 1, failures 1, reads 2
4:store|gsg=mff 1;gsg=mpm 1|executed 2, groups 1, stations 1, failures 1, reads 2
5:store|gsg=mff 1;gsg=mpm 1|executed 2, groups 1, stations 1, failures 1, reads 2
6:store|gsg=mpf 1;gsg=mpm 1|executed 2, groups 1, stations 1, failures 1, reads 2
1:noMemory|out of memory|executed 0, groups 0, stations 0, failures 0, reads 1
1:store|the store has failed|executed 0, groups 0, stations 0, failures 1, reads 1
5:noMemory|gs=mn 1|executed 1, groups 1, stations 0, failures 0, reads 1
5:noMemory|gsgtsu=mnmqpr 1|executed 4, groups 1, stations 3, failures 0, reads 2
5:noMemory 7:noMemory|gssgs=mnnmp 1|executed 2, groups 1, stations 1, failures 0, reads 3
5:noMemory 7:store|gssgs=mnfff 1|executed 1, groups 1, stations 0, failures 1, reads 2
5:store|gs/c=mff 2|executed 1, groups 1, stations 0, failures 1, reads 1
"#
}

// The line of a letter: a request, or an answer.
fn line_of(letter: u8) -> &'static str {
    match letter {
        b'g' => {
            r#"0 {"requester":"plan","invoke":1,"service":"addGroup","device":"100","name":"Billing","ring":20,"wrap":30}"#
        }
        b's' => r#"0 {"requester":"plan","invoke":2,"service":"addStation","device":"201"}"#,
        b't' => r#"0 {"requester":"plan","invoke":3,"service":"addStation","device":"202"}"#,
        b'u' => r#"0 {"requester":"plan","invoke":4,"service":"addStation","device":"203"}"#,
        b'c' => {
            r#"10 {"requester":"pbx","invoke":1,"service":"arriveCall","caller":"0301234","called":"100"}"#
        }
        b'm' => r#"200 {"invoke":1,"requester":"plan","result":{}}"#,
        b'p' => r#"200 {"invoke":2,"requester":"plan","result":{}}"#,
        b'q' => r#"200 {"invoke":3,"requester":"plan","result":{}}"#,
        b'r' => r#"200 {"invoke":4,"requester":"plan","result":{}}"#,
        b'n' => r#"503 {"error":{"code":33,"name":"noMemory"}}"#,
        _ => r#"503 {"error":{"code":34,"name":"storeFault"}}"#,
    }
}

// The lines of these letters, behind others.
fn push_lines(rt: &impl Abort, text: &mut String, letters: &str) {
    for letter in letters.as_bytes() {
        text.push_str(line_of(*letter)).expect(rt, "memory");
        text.push_str("\n").expect(rt, "memory");
    }
}

// What the desk answers, and how often it was written.
fn answered<B: Book>(rt: &impl Abort, alloc: Global, desk: &mut Desk<B>, asked: &str) -> String {
    let (first, second) = asked.split_once('/').unwrap_or((asked, ""));
    let mut text = String::new(alloc);
    push_lines(rt, &mut text, first);
    let size = text.len();
    push_lines(rt, &mut text, second);
    let mut reader = Pieces::new(text.as_bytes(), size);
    let mut writer = wide(alloc);
    let ended = lines(alloc, desk, &mut reader, &mut writer);
    assert!(rt; ended.is_ok());
    let written = text_in(rt, &writer.taken);
    format!(in alloc; "{written} {}", writer.calls).expect(rt, "memory")
}

// The desk plays a session.
fn play<B: Book>(rt: &impl Abort, alloc: Global, desk: &mut Desk<B>, session: &str) {
    let (asked, said) = session.split_once('=').expect(rt, "answers");
    let (answers, calls) = said.split_once(' ').expect(rt, "how often it is written");
    let mut wanted = String::new(alloc);
    push_lines(rt, &mut wanted, answers);
    wanted.push_str(" ").expect(rt, "memory");
    wanted.push_str(calls).expect(rt, "memory");
    let found = answered(rt, alloc, desk, asked);
    assert!(rt; found.as_str() == wanted.as_str(), "{session}: {found}");
}

// A desk over the book plays a session, or isn't opened, and gives the book back.
fn played<B: Book + Drop>(rt: &impl Abort, alloc: Global, book: B, session: &str) -> B {
    match Desk::open(alloc, book) {
        Ok(mut desk) => {
            play(rt, alloc, &mut desk, session);
            desk.close()
        }
        Err((fault, book)) => {
            let found = format!(in alloc; "{fault}").expect(rt, "memory");
            assert_eq!(rt; found.as_str(), session);
            book
        }
    }
}

// What the book reads, once the sessions are played.
fn summary_after<B: Book + Summed + Drop>(
    rt: &impl Abort,
    alloc: Global,
    mut book: B,
    sessions: &str,
) -> String {
    for session in sessions.split(';') {
        book = played(rt, alloc, book, session);
    }
    book.summary(rt, alloc)
}

#[test]
fn sessions_over_a_book_that_fails(rt: HostRuntime) {
    let alloc = rt.alloc();
    for row in text_in(&rt, rows()).lines() {
        if let Some((failing, said)) = row.split_once('|') {
            let (sessions, summary) = said.split_once('|').expect(&rt, "a summary");
            let book = FailingBook::new(MemoryBook::new(alloc, Limits::GREATEST), failing);
            let found = summary_after(&rt, alloc, book, sessions);
            assert!(rt; found.as_str() == summary, "{row}: {found}");
        }
    }
}
