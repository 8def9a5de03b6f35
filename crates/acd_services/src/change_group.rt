//! changeGroup.

ghost use Rattle.std.specs.Prelude.{◌≡◌};
ghost use Rattle.acd_model.specs.Services.ChangeGroup.{change_group};

use acd_model::{Change, Moves, Served, gives, refuse_if, silent};
use acd_tables::Tables;
use acd_terms::Refusal::{NotGroup, UnknownDevice};
use acd_terms::{Answer, DeviceId, GroupRecord, Name, Seconds};

/// A group gets another name, ring and wrap. Its priority, its queue and its figures stay as they are.
#[tactic(auto, unfolding(acd_model::specs::Services::ChangeGroup::change_group))]
pub fn change_group(
    tables: &Tables,
    device: DeviceId,
    name: Name,
    ring: Seconds,
    wrap: Seconds,
) -> Served
    ensures { result ≡ change_group tables.now device name ring wrap }
{
    refuse_if(!tables.is_planned(device), UnknownDevice)?;
    let group = tables.group(device).ok_or(NotGroup)?;
    let changed = GroupRecord {
        name,
        ring,
        wrap,
        ..group
    };
    gives(
        Answer::Nothing,
        Moves::one(silent(Change::PutGroup(changed))),
    )
}
