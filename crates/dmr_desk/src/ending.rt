//! Why a worker ended.

/// The reason why a worker ended.
#[derive(Clone, Copy, Debug, PartialEq, Eq)]
pub enum Ending {
    /// Its port has no more connections, or its pacer no more ticks. Its link, if it has one, has nothing pending.
    Finished,
    /// Its gate was shut. The link keeps the event that it was about to deposit.
    GateShut,
    /// The term is over: the journal is at its limit, or a thread of the term could not be started, and then `run_term`
    /// returns no term. The link keeps an event that the desk did not take; a tick is dropped.
    TermOver,
}

/// `Finished`.
impl Default for Ending {
    ghost use Rattle.std.specs.Prelude.{◌≡◌};
    ghost use Rattle.dmr_desk.specs.declared.ending.Ending.TheVariants.{Finished};

    ghost is_default = { λ e. e ≡ Finished };

    fn default() -> Self {
        Ending::Finished
    }
}
