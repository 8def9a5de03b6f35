//! A call of a stream that failed.

ghost use Rattle.std.specs.Prelude.{◌≡◌, ◌≢◌, Ok, Err, IfErr};
ghost use Rattle.std.specs.IoError.{error_kind};

use std::io::{Error, ErrorKind};

/// A call that was interrupted is made again; any other failure is answered as the fault.
pub fn retried<F: Copy>(error: Error, fault: F) -> Result<(), F>
    ensures again { error_kind error ≡ ErrorKind.Interrupted → result ≡ Ok tt }
    ensures fault { error_kind error ≢ ErrorKind.Interrupted → result ≡ Err fault }
    ensures given { IfErr result (λ e. e ≡ fault) }
{
    if error.kind() == ErrorKind::Interrupted {
        Ok(())
    } else {
        Err(fault)
    }
}
