//! The counts of an event for a group.

ghost use Rattle.std.specs.Prelude.{◌≡◌, ◌∷◌, []};
ghost use Rattle.acd_model.specs.Figures.{sum_of_figures, counting};
ghost use Rattle.acd_model.specs.Changes.{counted_group};
ghost use Rattle.acd_switch.specs.FigureSums.{figures_by, AreFitting};

use acd_terms::{Cause, DeviceId, Event, Figures, GroupRecord, Report};

const NO_FIGURES: Figures = Figures {
    entered: 0,
    answered: 0,
    abandoned: 0,
    moved: 0,
    waited: 0,
};

/// The group whose figures the report adds to.
pub fn counted_group(report: &Report) -> Option<DeviceId>
    ensures { result ≡ counted_group report.now }
{
    match *report {
        Report::Queued { group, cause, .. } if cause != Cause::NoAnswer => Some(group),
        Report::Established {
            waited: Some(waited),
            ..
        } => Some(waited.group),
        Report::CallCleared { group, .. } => group,
        Report::Diverted {
            cause: Cause::Deflected,
            group,
            ..
        } => group,
        _ => None,
    }
}

// The counts of one report for the group.
#[tactic(auto, unfolding(crate::specs::FigureSums::figures_by))]
fn figures_by(group: DeviceId, report: &Report) -> Figures
    ensures { result ≡ figures_by group report.now }
{
    match *report {
        Report::Queued {
            group: queue,
            cause,
            ..
        } if queue == group && cause != Cause::NoAnswer => Figures {
            entered: 1,
            ..NO_FIGURES
        },
        Report::Established {
            waited: Some(waited),
            ..
        } if waited.group == group => Figures {
            answered: 1,
            waited: u64::from(waited.seconds),
            ..NO_FIGURES
        },
        Report::CallCleared {
            group: Some(queue),
            ..
        } if queue == group => Figures {
            abandoned: 1,
            ..NO_FIGURES
        },
        Report::Diverted {
            cause: Cause::Deflected,
            group: Some(queue),
            ..
        } if queue == group => Figures {
            moved: 1,
            ..NO_FIGURES
        },
        _ => NO_FIGURES,
    }
}

// The sums of the figures.
fn sum_of(a: Figures, b: Figures) -> Figures
    requires { AreFitting (sum_of_figures a b) }
    ensures { result ≡ sum_of_figures a b }
{
    Figures {
        entered: a.entered + b.entered,
        answered: a.answered + b.answered,
        abandoned: a.abandoned + b.abandoned,
        moved: a.moved + b.moved,
        waited: a.waited + b.waited,
    }
}

/// The group with what the event adds to its figures.
pub fn counting(group: GroupRecord, event: &Event) -> GroupRecord
    requires { AreFitting (counting (event.now ∷ []) group).figures }
    ensures { result ≡ counting (event.now ∷ []) group }
{
    let figures = sum_of(group.figures, figures_by(group.device, &event.report));
    GroupRecord { figures, ..group }
}
