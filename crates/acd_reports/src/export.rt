//! The export of events in CSV.

ghost use Rattle.std.specs.Prelude.{◌≡◌, [], map, IfOk, OnOk, string_bytes, decimal};
ghost use Rattle.csv.specs.Records.{fields_of, partial_of};
ghost use Rattle.acd_terms.specs.Forms.{digits_of};
ghost use Rattle.acd_terms.specs.EventNames.{cause_name};
ghost use Rattle.acd_reports.specs.Export.{written_field, header_record, records_text, events_csv, PagesJoin, fields_of_event, record_text};
ghost use Rattle.acd_reports.specs.ExportWriters.{IsExportWriter, Adds, all_written, AddsField};

use acd_terms::{AgentId, Cause, DeviceId, Event};
use csv::{ByteRecord, Writer, WriterBuilder};
use itoa::Buffer;
use std::alloc::{AllocError, Global};

fn push(row: &mut ByteRecord, field: &[u8]) -> Result<(), AllocError>
    requires { partial_of row.old ≡ [] }
    ensures fields { AddsField result row.old row.new field.now }
    ensures partial { OnOk result (partial_of row.new ≡ []) }
{
    row.push_field(field)
}

fn push_number(row: &mut ByteRecord, number: Option<u64>) -> Result<(), AllocError>
    requires { partial_of row.old ≡ [] }
    ensures fields { AddsField result row.old row.new (written_field decimal number) }
    ensures partial { OnOk result (partial_of row.new ≡ []) }
{
    let mut buffer = Buffer::new();
    match number {
        Some(number) => push(row, buffer.format(number).as_bytes()),
        None => push(row, b""),
    }
}

fn push_device(row: &mut ByteRecord, device: Option<DeviceId>) -> Result<(), AllocError>
    requires { partial_of row.old ≡ [] }
    ensures fields { AddsField result row.old row.new (written_field digits_of device) }
    ensures partial { OnOk result (partial_of row.new ≡ []) }
{
    match device {
        Some(device) => push(row, device.text().as_bytes()),
        None => push(row, b""),
    }
}

fn push_agent(row: &mut ByteRecord, agent: Option<AgentId>) -> Result<(), AllocError>
    requires { partial_of row.old ≡ [] }
    ensures fields { AddsField result row.old row.new (written_field digits_of agent) }
    ensures partial { OnOk result (partial_of row.new ≡ []) }
{
    match agent {
        Some(agent) => push(row, agent.text().as_bytes()),
        None => push(row, b""),
    }
}

fn push_cause(row: &mut ByteRecord, cause: Option<Cause>) -> Result<(), AllocError>
    requires { partial_of row.old ≡ [] }
    ensures fields { AddsField result row.old row.new (written_field cause_name cause) }
    ensures partial { OnOk result (partial_of row.new ≡ []) }
{
    match cause {
        Some(cause) => push(row, cause.name().as_bytes()),
        None => push(row, b""),
    }
}

// The fields of an event's record.
fn fill(row: &mut ByteRecord, event: &Event) -> Result<(), AllocError>
    ensures { OnOk result (fields_of row.new ≡ fields_of_event event.now) }
{
    let columns = event.report.columns();
    row.clear();
    push_number(row, Some(event.number))?;
    push_number(row, Some(u64::from(event.moment)))?;
    push(row, columns.kind.name().as_bytes())?;
    push_number(row, columns.call)?;
    push_device(row, columns.device)?;
    push_agent(row, columns.agent)?;
    push_device(row, columns.group)?;
    push_device(row, columns.to)?;
    push_cause(row, columns.cause)?;
    push_number(row, columns.waited.map(u64::from))
}

fn writer_of(alloc: Global) -> Writer<Vec<u8>>
    ensures plain { IsExportWriter result }
    ensures empty { all_written result ≡ [] }
{
    WriterBuilder::new().from_writer(Vec::new(alloc))
}

fn write(writer: &mut Writer<Vec<u8>>, row: &ByteRecord) -> Result<(), AllocError>
    requires { IsExportWriter writer.old }
    ensures { OnOk result (Adds writer.old (record_text (fields_of row.now)) writer.new) }
{
    let Ok(()) = writer.write_byte_record(row) else {
        return Err(AllocError);
    };
    Ok(())
}

fn write_fields(writer: &mut Writer<Vec<u8>>, fields: &[&[u8]]) -> Result<(), AllocError>
    requires { IsExportWriter writer.old }
    ensures { OnOk result (Adds writer.old (record_text (map (λ f. f.now) fields.now)) writer.new) }
{
    let Ok(()) = writer.write_fields(fields) else {
        return Err(AllocError);
    };
    Ok(())
}

#[tactic(auto, unfolding(crate::specs::Export::header_record))]
fn write_header(writer: &mut Writer<Vec<u8>>) -> Result<(), AllocError>
    requires { IsExportWriter writer.old }
    ensures { OnOk result (Adds writer.old header_record writer.new) }
{
    let header: [&[u8]; 10] = [
        b"number", b"moment", b"event", b"call", b"device", b"agent", b"group", b"to", b"cause",
        b"waited",
    ];
    write_fields(writer, &header)
}

// Writes the record of each event.
#[tactic(auto, unfolding(crate::specs::Export::records_text))]
fn write_events(
    writer: &mut Writer<Vec<u8>>,
    alloc: Global,
    events: &[Event],
) -> Result<(), AllocError>
    requires { IsExportWriter writer.old }
    ensures { OnOk result (Adds writer.old (records_text events.now) writer.new) }
{
    let mut row = ByteRecord::new(alloc);
    for event in events {
        fill(&mut row, event)?;
        write(writer, &row)?;
    }
    Ok(())
}

// The written bytes are characters of ASCII, so they are text; no clause says so.
fn text_of(writer: Writer<Vec<u8>>) -> Result<String, AllocError>
    ensures { IfOk result (λ s. string_bytes s ≡ all_written writer) }
{
    let Ok(bytes) = writer.into_inner() else {
        return Err(AllocError);
    };
    let Ok(text) = String::from_utf8(bytes) else {
        return Err(AllocError);
    };
    Ok(text)
}

/// The header record of an export.
#[tactic(auto, unfolding(crate::specs::Export::header_record))]
pub fn export_header() -> &'static str
    ensures { result.now ≡ header_record }
{
    "number,moment,event,call,device,agent,group,to,cause,waited\n"
}

/// The records of some events. An export may be written page by page: the header, then the records of
/// the first events, and so on.
pub fn events_page(alloc: Global, events: &[Event]) -> Result<String, AllocError>
    ensures { IfOk result (λ s. string_bytes s ≡ records_text events.now) }
{
    let mut writer = writer_of(alloc);
    write_events(&mut writer, alloc, events)?;
    text_of(writer)
}

/// The export of all events: the header record, and a record for each event.
#[tactic(auto, unfolding(crate::specs::Export::events_csv))]
pub fn events_csv(alloc: Global, events: &[Event]) -> Result<String, AllocError>
    ensures { IfOk result (λ s. string_bytes s ≡ events_csv events.now) }
{
    let mut writer = writer_of(alloc);
    write_header(&mut writer)?;
    write_events(&mut writer, alloc, events)?;
    text_of(writer)
}

/// Pages of an export follow one another: the records of all events are those of some, and then those
/// of the others.
pub fn pages_join()
    ensures { PagesJoin }
{}
