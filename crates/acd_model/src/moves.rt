//! The answer of a service: a refusal, or an answer and the moves that it makes.

ghost use Rattle.std.specs.Prelude.{◌≡◌, [], ◌∷◌};
ghost use Rattle.acd_model.specs.Moves.{no_move, silent, reported};
ghost use Rattle.acd_model.specs.ServiceAnswers.{refuse_if, gives};

use acd_terms::{
    AgentId, AgentRecord, AgentState, Answer, CallRecord, ConnectionRecord, DeviceId, GroupRecord,
    MonitorRecord, Refusal, Report, StationRecord,
};
use std::marker::Model;

/// The change of one record, or of none.
#[derive(Clone, Copy, Debug, PartialEq, Eq)]
pub enum Change {
    Nothing,
    PutGroup(GroupRecord),
    PutStation(StationRecord),
    PutAgent(AgentRecord),
    PutCall(CallRecord),
    PutConnection(ConnectionRecord),
    PutMonitor(MonitorRecord),
    RemoveCall(u64),
    RemoveConnection(u64, DeviceId),
    RemoveMonitor(u64),
}

/// A change, and the report of it, if there is one.
#[derive(Clone, Copy, Debug)]
pub struct Move {
    pub change: Change,
    pub report: Option<Report>,
}

const NO_MOVE: Move = Move {
    change: Change::Nothing,
    report: None,
};

/// No change and no report.
pub fn no_move() -> Move
    ensures { result ≡ no_move }
{
    Move {
        change: Change::Nothing,
        report: None,
    }
}

/// A change that is not reported.
pub fn silent(change: Change) -> Move
    ensures { result ≡ silent change }
{
    Move {
        change,
        report: None,
    }
}

/// A change and its report.
pub fn reported(change: Change, report: Report) -> Move
    ensures { result ≡ reported change report }
{
    Move {
        change,
        report: Some(report),
    }
}

/// Up to five moves, held in place and seen as a list.
#[derive(Debug, Drop)]
pub struct Moves {
    cells: [Move; 5],
    len: usize,
}

impl Model for Moves {
    ghost use Rattle.std.specs.Prelude.{List, take, ◌≤◌};
    ghost use Rattle.acd_model.specs.declared.moves.Move.{Move};

    ghost Value = { List Move };

    ghost view = { λ m. take m.len m.cells };

    ghost invariant = { λ m. m.len ≤ 5 };
}

impl Moves {
    pub fn none() -> Moves
        ensures { result ≡ [] }
    {
        Moves {
            cells: [NO_MOVE; 5],
            len: 0,
        }
    }

    pub fn one(a: Move) -> Moves
        ensures { result ≡ a ∷ [] }
    {
        Moves {
            cells: [a, NO_MOVE, NO_MOVE, NO_MOVE, NO_MOVE],
            len: 1,
        }
    }

    pub fn two(a: Move, b: Move) -> Moves
        ensures { result ≡ a ∷ b ∷ [] }
    {
        Moves {
            cells: [a, b, NO_MOVE, NO_MOVE, NO_MOVE],
            len: 2,
        }
    }

    pub fn three(a: Move, b: Move, c: Move) -> Moves
        ensures { result ≡ a ∷ b ∷ c ∷ [] }
    {
        Moves {
            cells: [a, b, c, NO_MOVE, NO_MOVE],
            len: 3,
        }
    }

    pub fn five(a: Move, b: Move, c: Move, d: Move, e: Move) -> Moves
        ensures { result ≡ a ∷ b ∷ c ∷ d ∷ e ∷ [] }
    {
        Moves {
            cells: [a, b, c, d, e],
            len: 5,
        }
    }

    pub fn as_slice(&self) -> &[Move]
        ensures { result.now ≡ self.now }
    {
        &self.cells[..self.len]
    }
}

/// The answer and the moves of a service that doesn't refuse.
#[derive(Debug, Drop)]
pub struct Done {
    pub answer: Answer,
    pub moves: Moves,
}

/// The answer of a service: the first refusal that applies, or its answer and its moves.
pub type Served = Result<Done, Refusal>;

/// Refuses where the test holds.
#[tactic(auto, unfolding(crate::specs::ServiceAnswers::refuse_if))]
pub fn refuse_if(test: bool, refusal: Refusal) -> Result<(), Refusal>
    ensures { result ≡ refuse_if test refusal }
{
    if test { Err(refusal) } else { Ok(()) }
}

/// An answer, and the moves that are made.
pub fn gives(answer: Answer, moves: Moves) -> Served
    ensures { result ≡ gives answer moves }
{
    Ok(Done { answer, moves })
}

/// How a distributed connection ends.
#[derive(Clone, Copy, Debug, PartialEq, Eq)]
pub enum Ending {
    /// After it was answered.
    Answered,
    /// By clearing or deflecting, before it was answered.
    Unanswered,
    /// It rang too long.
    NoAnswer,
}

/// An agent whose distributed connection ended, and what becomes of it.
#[derive(Clone, Copy, Debug, PartialEq, Eq)]
pub enum Release {
    /// The agent stays ready, with its old stamp and moment, and nothing is reported.
    Stays,
    /// The agent changes to the state, with a new stamp and moment, and it is reported.
    Goes(AgentState),
}

/// The destination at which a call arrives.
#[derive(Clone, Copy, Debug, PartialEq, Eq)]
pub enum Destination {
    /// A group: the call enters its queue.
    Queue,
    /// An idle station: the call alerts.
    Idle,
    /// Any other station: the call fails.
    Busy,
}

/// A waiting call that is offered to a ready agent of its group.
#[derive(Clone, Copy, Debug, PartialEq, Eq)]
pub struct Offer {
    pub group: DeviceId,
    pub call: u64,
    pub agent: AgentId,
}
