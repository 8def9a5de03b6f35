//! monitorStart.

ghost use Rattle.std.specs.Prelude.{◌≡◌, ◌<◌, ◌^◌, ◌-◌};
ghost use Rattle.acd_model.specs.Services.MonitorStart.{monitor_start};

use acd_model::{Change, Moves, Served, gives, refuse_if, silent};
use acd_tables::Tables;
use acd_terms::Refusal::{PlanFull, UnknownDevice};
use acd_terms::{Answer, DeviceId, MonitorRecord};

/// A monitor on a planned device begins (Monitor Start of ECMA-269).
#[tactic(auto, unfolding(acd_model::specs::Services::MonitorStart::monitor_start))]
pub fn monitor_start(tables: &Tables, device: DeviceId) -> Served
    requires { tables.now.last_monitor < 2 ^ 64 - 1 }
    ensures { result ≡ monitor_start tables.now device }
{
    refuse_if(!tables.is_planned(device), UnknownDevice)?;
    refuse_if(!tables.has_room_for_monitor(), PlanFull)?;
    let monitor = tables.last_monitor() + 1;
    let record = MonitorRecord {
        monitor,
        device,
        after_event: tables.last_event(),
    };
    let moves = Moves::one(silent(Change::PutMonitor(record)));
    gives(Answer::Monitor(monitor), moves)
}
