//! The site's replies to an operator.

use crate::command::LineNo;
use dmr_calls::{Call, Line};
use dmr_pdu::{Address, Blank, BoundedList, Lpcn, Slot};

/// The state of a slot: the first variant that applies.
#[derive(Clone, Copy, Debug, PartialEq, Eq)]
pub enum State {
    /// It is the control slot, whether its carrier is up or not.
    Control,
    /// Its carrier is not up.
    Down,
    /// A call is active on it.
    Call,
    /// A call can begin on it.
    Free,
    /// A P_CLEAR for it, or a grant that names it, has yet to be sent.
    Waiting,
}

/// A slot and its state.
#[derive(Clone, Copy, Debug, PartialEq, Eq)]
pub struct SlotState {
    /// The slot.
    pub slot: Slot,
    /// Its state.
    pub state: State,
}

impl Blank for SlotState {
    ghost use Rattle.dmr_core.specs.declared.reply.State.TheVariants.{Control};

    ghost blank = { record { slot = record { carrier = 0; slot = 0 }; state = Control } };

    fn blank() -> Self {
        SlotState {
            slot: Slot::blank(),
            state: State::Control,
        }
    }
}

/// The site's reply to an operator's command.
#[derive(Clone, Copy, Debug, PartialEq, Eq)]
pub enum Reply {
    /// The answer to `status`: numbers of carriers, radios, asks, lines and calls, and the move of the control channel.
    Status {
        /// The carriers that are up.
        carriers: usize,
        /// The registered radios.
        radios: usize,
        /// The asks: individual requests whose called radio has yet to answer.
        asks: usize,
        /// The lines: requests that wait for a free slot.
        lines: usize,
        /// The calls.
        calls: usize,
        /// The channel to which C_MOVE sends radios; `None` if the control slot sends C_ALOHA.
        moving: Option<Lpcn>,
    },
    /// The least registered radios from a number on, ascending.
    Radios(BoundedList<Address, 16>),
    /// The calls on a carrier, by slot.
    Calls(BoundedList<Call, 2>),
    /// Lines, in the order in which the site serves them.
    Lines {
        /// The place of the first of `rows`, counted from 1.
        from: LineNo,
        /// The lines.
        rows: BoundedList<Line, 16>,
    },
    /// Each slot of the plan, by carrier number, then slot.
    Slots(BoundedList<SlotState, 32>),
    /// The command is done.
    Done,
    /// No radio of this number is registered.
    NotRegistered,
    /// More than 56 PDUs wait for the control slot, whatever the command would queue.
    Busy,
    /// No call is active on the slot.
    NoCall,
    /// The plan has no such carrier.
    NoCarrier,
}
