//! Executed requests as JSON.

ghost use Rattle.std.specs.Prelude.{◌≡◌, codes, IfOk, OnOk, string_bytes};
ghost use Rattle.std.specs.List.{join_by};
ghost use Rattle.acd_desk.specs.Reads.RequestPages.{executed_text, further_texts, requests_text, Writes};

use acd_book::Kept;
use acd_codec::request_text;
use std::alloc::{AllocError, Global};
use std::fmt::Write;

// Writes a request, with its reply as it is kept.
#[tactic(auto, unfolding(crate::specs::Reads::RequestPages::executed_text))]
fn put_executed(alloc: Global, page: &mut String, kept: &Kept) -> Result<(), AllocError>
    ensures { OnOk result (Writes page.old page.new (executed_text kept.now)) }
{
    let request = request_text(alloc, &kept.request)?;
    write!(
        page,
        "{{\"moment\":{},\"reply\":{},\"request\":{},\"stamp\":{},\"status\":{}}}",
        kept.moment,
        kept.body.as_str(),
        request,
        kept.stamp,
        kept.status
    )
}

// Writes requests after another.
fn put_further(alloc: Global, page: &mut String, kept: &[Kept]) -> Result<(), AllocError>
    ensures { OnOk result (Writes page.old page.new (further_texts kept.now)) }
{
    for next in kept {
        page.push_str(",")?;
        put_executed(alloc, page, next)?;
    }
    Ok(())
}

fn put_all(alloc: Global, page: &mut String, kept: &[Kept]) -> Result<(), AllocError>
    ensures { OnOk result
        (Writes page.old page.new (join_by executed_text (codes ",") kept.now)) }
{
    match kept {
        [] => Ok(()),
        [first, further @ ..] => {
            put_executed(alloc, page, first)?;
            put_further(alloc, page, further)
        }
    }
}

/// The text of these requests, beside the stamp of the last one of all.
#[tactic(auto, unfolding(crate::specs::Reads::RequestPages::requests_text))]
pub(crate) fn requests_text(alloc: Global, kept: &[Kept], last: u64) -> Result<String, AllocError>
    ensures { IfOk result (λ s. string_bytes s ≡ requests_text kept.now last) }
{
    let mut page = format!(in alloc; "{{\"last\":{last},\"requests\":[")?;
    put_all(alloc, &mut page, kept)?;
    page.push_str("]}")?;
    Ok(page)
}
