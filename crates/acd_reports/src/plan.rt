//! A plan in CSV, and the requests that it represents.

ghost use Rattle.std.specs.Prelude.{◌≡◌, ◌≤◌, ◌+◌, ◌++◌, ◌∷◌, [], codes, length, IfOk, IfErr, OnOk};
ghost use Rattle.csv.specs.Records.{fields_of};
ghost use Rattle.csv.specs.Reading.{records, default_config, strip_bom};
ghost use Rattle.acd_reports.specs.PlanRows.{command_in_record};
ghost use Rattle.acd_reports.specs.Plan.{request_of, requests_from, requests_of, records_of, without_mark, plan_requests, GivesPlan};
ghost use Rattle.acd_reports.specs.PlanReaders.{IsPlanReader, ReadsPlan, rows_left, unread};

use crate::fault::PlanFault;
use crate::rows::{command_in_record, names_columns};
use acd_terms::{Invoke, Request, Requester};
use csv::{ByteRecord, Reader, ReaderBuilder};
use std::alloc::{AllocError, Global};

/// How many bytes a plan has at most.
const LONGEST: usize = 1048576;

#[tactic(auto, unfolding(crate::specs::Plan::without_mark))]
fn without_mark(bytes: &[u8]) -> &[u8]
    ensures value { result.now ≡ without_mark bytes.now }
    ensures short { length result.now ≤ length bytes.now }
{
    match bytes.strip_prefix(b"\xEF\xBB\xBF".as_slice()) {
        Some(text) => text,
        None => bytes,
    }
}

// A reader of all records. A record of another length than the header is a faulty row, and no fault of the reader.
fn reader_of(alloc: Global, text: &[u8]) -> Reader<&[u8]>
    ensures plain { IsPlanReader result }
    ensures rows { rows_left result ≡ records_of text.now }
    ensures short { length (unread result) ≤ length text.now }
{
    ReaderBuilder::new()
        .has_headers(false)
        .flexible(true)
        .from_reader(alloc, text)
}

// ReadsPlan the next record, if there is one.
fn read_row(reader: &mut Reader<&[u8]>, row: &mut ByteRecord) -> Result<bool, PlanFault>
    requires { IsPlanReader reader.old }
    ensures reads { IfOk result
        (λ found. ReadsPlan found reader.old (fields_of row.new) reader.new) }
    ensures fault { IfErr result (λ e. e ≡ PlanFault.NoMemory) }
{
    let Ok(found) = reader.read_byte_record(row) else {
        return Err(PlanFault::NoMemory);
    };
    Ok(found)
}

#[tactic(auto, unfolding(acd_terms::specs::Forms::read_text))]
fn planner() -> Requester
    ensures { result ≡ codes "plan" }
{
    Requester::read(b"plan").unwrap()
}

#[tactic(auto, unfolding(acd_terms::specs::Forms::number_between))]
fn request_in(number: u64, row: &ByteRecord) -> Result<Request, PlanFault>
    requires low { 1 ≤ number }
    requires high { number ≤ 1048576 }
    ensures { result ≡ request_of number (command_in_record (fields_of row.now)) }
{
    match command_in_record(row) {
        Ok(command) => Ok(Request {
            requester: planner(),
            invoke: Invoke::new(number).unwrap(),
            command,
        }),
        Err(member) => Err(PlanFault::Row {
            row: number,
            member,
        }),
    }
}

// A separate push, for any type.
fn keep<T: Copy + Drop>(one: &T, kept: &mut Vec<T>) -> Result<(), AllocError>
    ensures { OnOk result (kept.new.items ≡ kept.old.items ++ one.now ∷ []) }
{
    kept.push(*one)?;
    Ok(())
}

// The requests of the rows that are left. A row takes a byte at least.
fn requests_in(
    alloc: Global,
    reader: &mut Reader<&[u8]>,
    most: usize,
) -> Result<Vec<Request>, PlanFault>
    requires plain { IsPlanReader reader.old }
    requires short { length (unread reader.old) ≤ most }
    requires bound { most ≤ 1048576 }
    ensures { GivesPlan result (requests_from 1 (rows_left reader.old)) }
{
    let mut row = ByteRecord::new(alloc);
    let mut requests = Vec::new(alloc);
    for number in 0..most as u64 {
        if !read_row(reader, &mut row)? {
            return Ok(requests);
        }
        match request_in(number + 1, &row) {
            Ok(request) => keep(&request, &mut requests)?,
            Err(fault) => return Err(fault),
        }
    }
    Ok(requests)
}

// The requests of a header and the rows after it.
fn requests_of(
    alloc: Global,
    reader: &mut Reader<&[u8]>,
    most: usize,
) -> Result<Vec<Request>, PlanFault>
    requires plain { IsPlanReader reader.old }
    requires short { length (unread reader.old) ≤ most }
    requires bound { most ≤ 1048576 }
    ensures { GivesPlan result (requests_of (rows_left reader.old)) }
{
    let mut header = ByteRecord::new(alloc);
    if !read_row(reader, &mut header)? {
        return Err(PlanFault::Header);
    }
    if !names_columns(&header) {
        return Err(PlanFault::Header);
    }
    requests_in(alloc, reader, most)
}

/// The requests of a plan: a header record, and a row for each group, station and agent. They come from the
/// requester `plan`, and a row's number, from 1, is the request's invoke number.
#[tactic(auto, unfolding(crate::specs::Plan::plan_requests))]
pub fn plan_requests(alloc: Global, bytes: &[u8]) -> Result<Vec<Request>, PlanFault>
    ensures { GivesPlan result (plan_requests bytes.now) }
{
    if bytes.len() > LONGEST {
        return Err(PlanFault::TooLong);
    }
    let text = without_mark(bytes);
    let mut reader = reader_of(alloc, text);
    requests_of(alloc, &mut reader, text.len())
}
