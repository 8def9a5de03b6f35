//! addStation.

ghost use Rattle.std.specs.Prelude.{◌≡◌};
ghost use Rattle.acd_model.specs.Services.AddStation.{add_station};

use acd_model::{Change, Moves, Served, gives, refuse_if, silent};
use acd_tables::Tables;
use acd_terms::Refusal::{DeviceExists, PlanFull};
use acd_terms::{Answer, DeviceId, StationRecord};

/// A station is planned.
#[tactic(auto, unfolding(acd_model::specs::Services::AddStation::add_station))]
pub fn add_station(tables: &Tables, device: DeviceId) -> Served
    ensures { result ≡ add_station tables.now device }
{
    refuse_if(tables.is_used(device), DeviceExists)?;
    refuse_if(!tables.has_room_for_station(), PlanFull)?;
    let moves = Moves::one(silent(Change::PutStation(StationRecord { device })));
    gives(Answer::Nothing, moves)
}
