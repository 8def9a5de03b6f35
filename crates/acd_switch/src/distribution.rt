//! Offers of waiting calls to ready agents.

ghost use Rattle.std.specs.Prelude.{OnOk};
ghost use Rattle.acd_model.specs.Distribution.{offer_moves, distribution};
ghost use Rattle.acd_switch.specs.CarriedOutMoves.{Carries};

use crate::journal::Journal;
use acd_model::Offer;
use acd_services::{divert, offer};
use acd_tables::Tables;
use acd_terms::Cause;
use std::alloc::AllocError;

// Makes the offer.
#[tactic(auto, unfolding(acd_model::specs::Distribution::offer_moves))]
fn make_offer(
    tables: &mut Tables,
    moment: u32,
    offered: Offer,
    journal: &mut Journal,
) -> Result<(), AllocError>
    ensures { OnOk result (Carries moment (offer_moves tables.old moment offered)
        tables journal) }
{
    let Some(connection) = tables.connection(offered.call, offered.group) else {
        return Ok(());
    };
    let Some(agent) = tables.agent(offered.agent) else {
        return Ok(());
    };
    let Some(station) = agent.station else {
        return Ok(());
    };
    let moves = [
        divert(&connection, station, Cause::Distributed),
        offer(moment, &connection, station),
    ];
    journal.make_all(tables, moment, &moves)
}

/// Makes offers until there is none. After an error tables and journal are only to be dropped.
pub fn distribute(tables: &mut Tables, moment: u32, journal: &mut Journal) -> Result<(), AllocError>
    ensures { OnOk result (Carries moment (distribution tables.old moment) tables journal) }
{
    let most = tables.queued_count();
    for round in 0..most {
        let Some(offer) = tables.first_offer() else {
            return Ok(());
        };
        make_offer(tables, moment, offer, journal)?;
    }
    Ok(())
}
