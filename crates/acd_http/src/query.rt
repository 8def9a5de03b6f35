//! The number that a query names as `after`.

ghost use Rattle.std.specs.Prelude.{◌≡◌, IfOk};
ghost use Rattle.acd_http.specs.Query.{query_text, names_after, after_number, after_step, after_of};

use acd_io::number_up_to;
use form_urlencoded::{decode, raw_pairs};
use std::alloc::{AllocError, Global};

/// How many digits the number has at most.
const DIGITS: usize = 15;

fn is_after(alloc: Global, name: &[u8]) -> Result<bool, AllocError>
    ensures { IfOk result (λ b. b ≡ names_after name.now) }
{
    let name = decode(alloc, name)?;
    Ok(name.as_str() == "after")
}

#[tactic(auto, unfolding(crate::specs::Query::after_number), using(std::proofs::lemmas::Bool::Decides::nat_tests))]
fn after_number(digits: &[u8]) -> Option<u64>
    ensures { result ≡ after_number digits.now }
{
    if digits.len() <= DIGITS {
        number_up_to(digits)
    } else {
        None
    }
}

fn number_of(alloc: Global, value: &[u8]) -> Result<Option<u64>, AllocError>
    ensures { IfOk result (λ n. n ≡ after_number (query_text value.now)) }
{
    let value = decode(alloc, value)?;
    Ok(after_number(value.as_str().as_bytes()))
}

#[tactic(auto, unfolding(crate::specs::Query::after_step))]
fn after_step(
    alloc: Global,
    found: Option<Option<u64>>,
    name: &[u8],
    value: &[u8],
) -> Result<Option<Option<u64>>, AllocError>
    ensures { IfOk result (λ f. f ≡ after_step found (name.now, value.now)) }
{
    if !is_after(alloc, name)? {
        return Ok(found);
    }
    if found.is_some() {
        return Ok(Some(None));
    }
    let number = number_of(alloc, value)?;
    Ok(Some(number))
}

/// The number that the query names as `after`, 0 where it names none. None where it names two, or one
/// that isn't 1 to 15 digits.
pub(crate) fn after_of(alloc: Global, query: &[u8]) -> Result<Option<u64>, AllocError>
    ensures { IfOk result (λ n. n ≡ after_of query.now) }
{
    let mut pairs = raw_pairs(query);
    let mut found = None;
    while let Some((name, value)) = pairs.next() {
        found = after_step(alloc, found, name, value)?;
    }
    Ok(found.unwrap_or(Some(0)))
}
