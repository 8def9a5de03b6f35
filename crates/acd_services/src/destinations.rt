//! Devices to which a call isn't given away.

ghost use Rattle.std.specs.Prelude.{◌≡◌};
ghost use Rattle.acd_model.specs.Services.Destinations.{is_in_call, is_busy_station};

use acd_tables::Tables;
use acd_terms::DeviceId;

/// The call has a connection at the device.
pub fn is_in_call(tables: &Tables, call: u64, device: DeviceId) -> bool
    ensures { result ≡ is_in_call tables.now call device }
{
    tables.connection(call, device).is_some()
}

/// A station that isn't idle.
pub fn is_busy_station(tables: &Tables, device: DeviceId) -> bool
    ensures { result ≡ is_busy_station tables.now device }
{
    tables.is_station(device) && !tables.is_idle(device)
}
