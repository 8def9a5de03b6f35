//! monitorStop.

ghost use Rattle.std.specs.Prelude.{◌≡◌};
ghost use Rattle.acd_model.specs.Services.MonitorStop.{monitor_stop};

use acd_model::{Change, Moves, Served, gives, silent};
use acd_tables::Tables;
use acd_terms::Answer;
use acd_terms::Refusal::UnknownMonitor;

/// A monitor ends (Monitor Stop of ECMA-269).
#[tactic(auto, unfolding(acd_model::specs::Services::MonitorStop::monitor_stop))]
pub fn monitor_stop(tables: &Tables, monitor: u64) -> Served
    ensures { result ≡ monitor_stop tables.now monitor }
{
    tables.monitor(monitor).ok_or(UnknownMonitor)?;
    let moves = Moves::one(silent(Change::RemoveMonitor(monitor)));
    gives(Answer::Nothing, moves)
}
