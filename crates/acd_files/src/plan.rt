//! The plan of an import.

ghost use Rattle.std.specs.Prelude.{IfOk};
ghost use Rattle.acd_files.specs.Plans.{IsEnough, IsSomePlan, IsPlanFrom};

use crate::fault::LookFault;
use crate::paging::disk_fault;
use acd_reports::plan_requests;
use acd_terms::Request;
use std::alloc::Global;
use std::fs;
use std::io::{self, Read};

// One byte more than a plan may have, so that a longer one is seen to be too long.
const ENOUGH: u64 = 1_048_577;

/// All bytes of a reader, or as many as are enough.
pub fn bytes_from<R: Read + Drop>(alloc: Global, reader: R) -> io::Result<Vec<u8>>
    ensures { IfOk result (λ bytes. IsEnough (R.remaining reader) bytes.items) }
{
    let mut bytes = Vec::new(alloc);
    reader.take(ENOUGH).read_to_end(&mut bytes)?;
    Ok(bytes)
}

// The requests of the whole plan that a reader gives.
fn plan_from<'a, R: Read + Drop>(
    alloc: Global,
    reader: R,
    path: &'a str,
) -> Result<Vec<Request>, LookFault<'a>>
    ensures { IfOk result (λ requests. IsPlanFrom (R.remaining reader) requests.items) }
{
    let bytes = match bytes_from(alloc, reader) {
        Ok(bytes) => bytes,
        Err(error) => return Err(LookFault::Path(disk_fault(error, path))),
    };
    match plan_requests(alloc, &bytes) {
        Ok(requests) => Ok(requests),
        Err(fault) => Err(LookFault::Plan(fault)),
    }
}

/// The requests of the plan at a path.
pub fn read_plan<'a>(rt: &HostRuntime, path: &'a str) -> Result<Vec<Request>, LookFault<'a>>
    ensures { IfOk result (λ requests. IsSomePlan requests.items) }
{
    match fs::open(rt, path) {
        Ok(file) => plan_from(rt.alloc(), file, path),
        Err(error) => Err(LookFault::Path(disk_fault(error, path))),
    }
}
