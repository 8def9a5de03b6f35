//! Values that are written token by token.

ghost use Rattle.std.specs.Prelude.{◌≡◌, [], ◌∷◌, ◌++◌, codes, IfOk, option_copied, string_bytes};
ghost use Rattle.json.specs.Print.{print};
ghost use Rattle.json.specs.Token.{end_object};
ghost use Rattle.serde_json.specs.Data.{Data, string, number, unsigned, member, no_members};
ghost use Rattle.acd_codec.specs.Parts.{text_part, number_part, list_part, groups_parts, items_of, digits_part};
ghost use Rattle.acd_codec.specs.ReplyTexts.{to_whom};
ghost use Rattle.acd_codec.specs.Tokens.{Begun, each_tokens, AddsTokens, AddsData, AddsMembers, AddsMember, AddsPart, AddsParts};

use acd_terms::{AgentId, DeviceId, Groups, Invoke, Priority, Requester, Seconds, Serial};
use json::Writer;
use std::alloc::{AllocError, Global};

/// How things of one type are written in a list.
pub(crate) trait Form {
    type Item;

    ghost data_of: { Self.Item → Data };

    /// Writes one of them.
    fn write(out: &mut Writer, item: &Self::Item) -> Result<(), AllocError>
        ensures { AddsData result out.old out.new (data_of item.now) };
}

/// Writes a member that is a text.
pub(crate) fn put_text(out: &mut Writer, name: &str, text: &str) -> Result<(), AllocError>
    ensures { AddsMember result out.old out.new name.now (string text.now) }
{
    out.key(name)?;
    out.string(text)
}

/// Writes a member that is a number.
pub(crate) fn put_number(out: &mut Writer, name: &str, value: u64) -> Result<(), AllocError>
    ensures { AddsMember result out.old out.new name.now (number (unsigned value)) }
{
    out.key(name)?;
    out.u64(value)
}

/// Writes the number of a request among those of its requester.
pub(crate) fn put_invoke(out: &mut Writer, invoke: Invoke) -> Result<(), AllocError>
    ensures { AddsMember result out.old out.new (codes "invoke") (number (unsigned invoke)) }
{
    put_number(out, "invoke", u64::from(invoke.number()))
}

/// Writes who sends a request.
pub(crate) fn put_requester(out: &mut Writer, requester: &Requester) -> Result<(), AllocError>
    ensures { AddsMember result out.old out.new (codes "requester") (string requester.now) }
{
    put_text(out, "requester", requester.as_str())
}

/// Writes whose request it is, where no other member comes between.
pub(crate) fn put_whom(
    out: &mut Writer,
    requester: &Requester,
    invoke: Invoke,
) -> Result<(), AllocError>
    ensures { AddsMembers result out.old out.new (to_whom requester.now invoke no_members) }
{
    put_invoke(out, invoke)?;
    put_requester(out, requester)
}

/// Writes a time of a group.
pub(crate) fn put_seconds(out: &mut Writer, name: &str, value: Seconds) -> Result<(), AllocError>
    ensures { AddsMember result out.old out.new name.now (number (unsigned value)) }
{
    put_number(out, name, u64::from(value.number()))
}

/// Writes the priority that a group is given.
pub(crate) fn put_priority(out: &mut Writer, priority: Priority) -> Result<(), AllocError>
    ensures { AddsMember result out.old out.new (codes "priority") (number (unsigned priority)) }
{
    put_number(out, "priority", u64::from(priority.number()))
}

/// Writes a call or a monitor as a request names it.
pub(crate) fn put_serial(out: &mut Writer, name: &str, value: Serial) -> Result<(), AllocError>
    ensures { AddsMember result out.old out.new name.now (number (unsigned value)) }
{
    put_number(out, name, value.number())
}

/// Writes a text, where there is one.
pub(crate) fn put_text_if(
    out: &mut Writer,
    name: &str,
    text: Option<&str>,
) -> Result<(), AllocError>
    ensures { AddsPart result out.old out.new
        (text_part name.now (option_copied text.entry)) }
{
    match text {
        None => Ok(()),
        Some(text) => put_text(out, name, text),
    }
}

/// Writes a number, where there is one.
pub(crate) fn put_number_if(
    out: &mut Writer,
    name: &str,
    value: Option<u64>,
) -> Result<(), AllocError>
    ensures { AddsPart result out.old out.new (number_part name.now value) }
{
    match value {
        None => Ok(()),
        Some(value) => put_number(out, name, value),
    }
}

/// Writes the digits of a device, where there is one.
pub(crate) fn put_device(
    out: &mut Writer,
    name: &str,
    device: Option<DeviceId>,
) -> Result<(), AllocError>
    ensures { AddsPart result out.old out.new (digits_part name.now device) }
{
    match device {
        None => Ok(()),
        Some(device) => put_text(out, name, device.text().as_str()),
    }
}

/// Writes the digits of an agent, where there is one.
pub(crate) fn put_agent(
    out: &mut Writer,
    name: &str,
    agent: Option<AgentId>,
) -> Result<(), AllocError>
    ensures { AddsPart result out.old out.new (digits_part name.now agent) }
{
    match agent {
        None => Ok(()),
        Some(agent) => put_text(out, name, agent.text().as_str()),
    }
}

// Writes one item after the other.
fn put_each<F: Form>(out: &mut Writer, items: &[F::Item]) -> Result<(), AllocError>
    ensures { AddsTokens result out.old out.new (each_tokens F.data_of items.now) }
{
    for item in items {
        F::write(out, item)?;
    }
    Ok(())
}

/// Writes a member that is a list.
pub(crate) fn put_list<F: Form>(
    out: &mut Writer,
    name: &str,
    items: &[F::Item],
) -> Result<(), AllocError>
    ensures { AddsPart result out.old out.new (list_part name.now (items_of F.data_of items.now)) }
{
    out.key(name)?;
    out.begin_array()?;
    put_each::<F>(out, items)?;
    out.end_array()
}

// Devices by their digits.
struct Devices;

impl Form for Devices {
    type Item = DeviceId;

    ghost use Rattle.acd_codec.specs.Parts.{digits_data};

    ghost data_of = { digits_data };

    fn write(out: &mut Writer, device: &DeviceId) -> Result<(), AllocError> {
        out.string(device.text().as_str())
    }
}

/// Writes the groups of an agent: one by itself, more in a list.
pub(crate) fn put_groups(out: &mut Writer, groups: &Groups) -> Result<(), AllocError>
    ensures { AddsParts result out.old out.new (groups_parts groups.now) }
{
    match groups.as_slice() {
        [] => Ok(()),
        [group] => put_device(out, "group", Some(*group)),
        several => put_list::<Devices>(out, "groups", several),
    }
}

/// The text that was written into an empty buffer.
pub(crate) fn text_of(out: Writer) -> Result<String, AllocError>
    requires { out.before ≡ [] }
    ensures { IfOk result (λ s. string_bytes s ≡ print out.tokens) }
{
    match String::from_utf8(out.into_inner()) {
        Ok(text) => Ok(text),
        Err(_) => unreachable!(),
    }
}

/// A buffer in which an object begins, in place of what it holds.
pub(crate) fn begun_in(buffer: Vec<u8>) -> Result<Writer, AllocError>
    ensures { IfOk result Begun }
{
    let mut buffer = buffer;
    buffer.clear();
    let mut out = Writer::new(buffer);
    out.begin_object()?;
    Ok(out)
}

/// A buffer with room for this many bytes, in which an object begins.
pub(crate) fn begun(alloc: Global, room: usize) -> Result<Writer, AllocError>
    ensures { IfOk result Begun }
{
    begun_in(Vec::with_capacity(alloc, room)?)
}

/// The bytes of the text, once the object ends.
pub(crate) fn ended_bytes(out: Writer) -> Result<Vec<u8>, AllocError>
    requires { out.before ≡ [] }
    ensures { IfOk result (λ bytes. bytes.items ≡ print (out.tokens ++ end_object ∷ [])) }
{
    let mut out = out;
    out.end_object()?;
    Ok(out.into_inner())
}

/// The text, once the object ends.
pub(crate) fn ended(out: Writer) -> Result<String, AllocError>
    requires { out.before ≡ [] }
    ensures { IfOk result (λ s. string_bytes s ≡ print (out.tokens ++ end_object ∷ [])) }
{
    let mut out = out;
    out.end_object()?;
    text_of(out)
}
