//! The queue report.

ghost use Rattle.std.specs.Prelude.{◌≡◌, length, map, IfOk, string_bytes};
ghost use Rattle.acd_model.specs.Scans.{waiting_in};
ghost use Rattle.acd_reports.specs.QueueReport.{average_wait, first_queued, longest_wait, ringing_from, group_state, group_line, report_text, queue_report};
ghost use Rattle.acd_reports.specs.Layout.{Appends};

use crate::columns::{push_left, push_numbers};
use acd_terms::{DeviceId, Figures, GroupRecord, Rows};
use std::alloc::{AllocError, Global};

/// The state of a group in the queue report.
#[derive(Clone, Copy)]
pub struct GroupState {
    pub group: GroupRecord,
    /// How many calls wait in it.
    pub waiting: usize,
    /// How many calls ring by distribution from it.
    pub ringing: usize,
    /// The least moment at which one of the calls that wait in it entered, in seconds.
    pub first_queued: Option<u32>,
}

const HEADER: &str =
    "group           waiting ringing    entered   answered  abandoned      moved    average    longest name\n";

#[tactic(auto, unfolding(acd_model::specs::Scans::waiting_in))]
fn waiting_in(rows: &Rows, group: DeviceId) -> usize
    ensures { result ≡ length (waiting_in rows.now group) }
{
    rows.connections
        .iter()
        .filter(|c| c.device == group && c.state.is_queued())
        .count()
}

#[tactic(auto, unfolding(crate::specs::QueueReport::ringing_from))]
fn ringing_from(rows: &Rows, group: DeviceId) -> usize
    ensures { result ≡ ringing_from rows.now group }
{
    rows.connections
        .iter()
        .filter(|c| c.group == Some(group) && c.state.is_alerting())
        .count()
}

#[tactic(auto, unfolding(crate::specs::QueueReport::average_wait))]
fn average_wait(figures: Figures) -> Option<u64>
    ensures { result ≡ average_wait figures }
{
    if figures.answered == 0 {
        return None;
    }
    Some(figures.waited / figures.answered)
}

// The least moment at which a call that waits in the group entered.
#[tactic(auto, unfolding(crate::specs::QueueReport::first_queued, acd_model::specs::Scans::waiting_in))]
fn first_queued(rows: &Rows, group: DeviceId) -> Option<u32>
    ensures { result ≡ first_queued rows.now group }
{
    rows.connections
        .iter()
        .filter(|c| c.device == group && c.state.is_queued())
        .filter_map(|c| c.queued)
        .min()
}

fn longest_wait(first: Option<u32>, moment: u32) -> Option<u64>
    ensures { result ≡ longest_wait first moment }
{
    Some(u64::from(moment.saturating_sub(first?)))
}

fn state_of(rows: &Rows, group: &GroupRecord) -> GroupState
    ensures { result ≡ group_state rows.now group.now }
{
    GroupState {
        group: *group,
        waiting: waiting_in(rows, group.device),
        ringing: ringing_from(rows, group.device),
        first_queued: first_queued(rows, group.device),
    }
}

fn states_of(
    alloc: Global,
    rows: &Rows,
    groups: &[GroupRecord],
) -> Result<Vec<GroupState>, AllocError>
    ensures { IfOk result (λ v. v.items ≡ map (group_state rows.now) groups.now) }
{
    let mut states = Vec::with_capacity(alloc, groups.len())?;
    for group in groups {
        states.push(state_of(rows, group))?;
    }
    Ok(states)
}

#[tactic(auto, unfolding(crate::specs::QueueReport::group_line))]
fn push_group(report: &mut String, moment: u32, state: &GroupState) -> Result<(), AllocError>
    ensures { Appends result report.old report.new (group_line moment state.now) }
{
    let group = &state.group;
    let figures = group.figures;
    let numbers = [
        (7, Some(state.waiting as u64)),
        (7, Some(state.ringing as u64)),
        (10, Some(figures.entered)),
        (10, Some(figures.answered)),
        (10, Some(figures.abandoned)),
        (10, Some(figures.moved)),
        (10, average_wait(figures)),
        (10, longest_wait(state.first_queued, moment)),
    ];
    push_left(report, 15, group.device.text().as_str())?;
    push_numbers(report, &numbers)?;
    report.push(' ')?;
    report.push_str(group.name.as_str())?;
    report.push('\n')
}

/// The queue report of these groups at a moment: a header line, and a line for each group, in their order. Calls that
/// entered their queue after the moment have waited for 0 seconds.
#[tactic(auto, unfolding(crate::specs::QueueReport::report_text, crate::specs::QueueReport::header_line))]
pub fn groups_report(
    alloc: Global,
    groups: &[GroupState],
    moment: u32,
) -> Result<String, AllocError>
    ensures { IfOk result (λ s. string_bytes s ≡ report_text groups.now moment) }
{
    let mut report = String::from_str(alloc, HEADER)?;
    for state in groups {
        push_group(&mut report, moment, state)?;
    }
    Ok(report)
}

/// The queue report of rows at a moment, a line for each group in their order. It takes any rows.
#[tactic(auto, unfolding(crate::specs::QueueReport::queue_report))]
pub fn queue_report(alloc: Global, rows: &Rows, moment: u32) -> Result<String, AllocError>
    ensures { IfOk result (λ s. string_bytes s ≡ queue_report rows.now moment) }
{
    let states = states_of(alloc, rows, rows.groups.as_slice())?;
    groups_report(alloc, &states, moment)
}
