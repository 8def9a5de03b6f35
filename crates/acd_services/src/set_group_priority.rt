//! setGroupPriority.

ghost use Rattle.std.specs.Prelude.{◌≡◌};
ghost use Rattle.acd_model.specs.Services.SetGroupPriority.{set_group_priority};

use acd_model::{Change, Moves, Served, gives, refuse_if, silent};
use acd_tables::Tables;
use acd_terms::Refusal::{NotGroup, UnknownDevice};
use acd_terms::{Answer, DeviceId, GroupRecord, Priority};

/// A group gets another priority. The waiting calls and the figures stay as they are.
#[tactic(auto, unfolding(acd_model::specs::Services::SetGroupPriority::set_group_priority))]
pub fn set_group_priority(tables: &Tables, device: DeviceId, priority: Priority) -> Served
    ensures { result ≡ set_group_priority tables.now device priority }
{
    refuse_if(!tables.is_planned(device), UnknownDevice)?;
    let group = tables.group(device).ok_or(NotGroup)?;
    let _number = priority.number();
    let moves = Moves::one(silent(Change::PutGroup(GroupRecord { priority, ..group })));
    gives(Answer::Nothing, moves)
}
