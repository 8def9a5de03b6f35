//! addGroup.

ghost use Rattle.std.specs.Prelude.{◌≡◌};
ghost use Rattle.acd_model.specs.Services.AddGroup.{add_group};

use acd_model::{Change, Moves, Served, gives, refuse_if, silent};
use acd_tables::Tables;
use acd_terms::Refusal::{DeviceExists, PlanFull};
use acd_terms::{Answer, DeviceId, Figures, GroupRecord, Name, Priority, Seconds};

/// A group is planned, of the lowest priority.
#[tactic(auto, unfolding(acd_model::specs::Services::AddGroup::add_group))]
pub fn add_group(
    tables: &Tables,
    device: DeviceId,
    name: Name,
    ring: Seconds,
    wrap: Seconds,
) -> Served
    ensures { result ≡ add_group tables.now device name ring wrap }
{
    refuse_if(tables.is_used(device), DeviceExists)?;
    refuse_if(!tables.has_room_for_group(), PlanFull)?;
    let group = GroupRecord {
        device,
        name,
        ring,
        wrap,
        priority: Priority::lowest(),
        figures: Figures {
            entered: 0,
            answered: 0,
            abandoned: 0,
            moved: 0,
            waited: 0,
        },
    };
    let moves = Moves::one(silent(Change::PutGroup(group)));
    gives(Answer::Nothing, moves)
}
