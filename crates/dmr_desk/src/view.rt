//! The events of one actor and their answers.

ghost use Rattle.std.specs.Prelude.{◌≡◌, ◌↔◌, ◌+◌, ◌<◌, ℕ, IsTrue, length, slice_index_or};
ghost use Rattle.dmr_desk.specs.Views.{deposit_in, Follows};

use dmr_core::{Acts, Entry, Event};
use dmr_link::Deposit;
use std::alloc::Global;
use std::default::MadeWith;
use std::marker::Model;

/// Makes the deposit of an event and its answer.
pub(crate) fn deposit_of(event: &Event, acts: &Acts) -> Deposit
    ensures { result ≡ record { event = event.now; acts = acts.now } }
{
    Deposit {
        event: *event,
        acts: *acts,
    }
}

/// Whether a deposit has the event and the answer of an entry.
fn is_of(deposit: &Deposit, entry: &Entry) -> bool
    ensures { IsTrue result ↔ (deposit.now ≡ deposit_in entry.now) }
{
    deposit.event.equals(&entry.event) && deposit.acts.equals(&entry.acts)
}

/// Compares an entry with the deposit at its turn in the view of the entry's actor. `turn` is the number of deposits
/// that the entries before have confirmed; `None` if one of them has shown that the view differs from the journal's
/// list. Returns the same after this entry.
pub fn follow(deposits: &[Deposit], turn: Option<usize>, entry: &Entry) -> Option<usize>
    ensures { (journal : _) (place : ℕ) → place < length journal
        → entry.now ≡ slice_index_or journal place entry.now
        → Follows deposits.now entry.now.actor journal place turn
        → Follows deposits.now entry.now.actor journal (place + 1) result }
{
    let turn = turn?;
    if turn < deposits.len() && is_of(&deposits[turn], entry) {
        Some(turn + 1)
    } else {
        None
    }
}

/// The events of one actor and their answers, in order. Contracts see the list of deposits.
#[derive(Drop)]
pub struct View {
    deposits: Vec<Deposit>,
}

impl Model for View {
    ghost use Rattle.std.specs.Prelude.{List};
    ghost use Rattle.dmr_link.specs.declared.desk.Deposit.{Deposit as ADeposit};

    ghost Value = { List ADeposit };

    ghost view = { λ v. v.deposits.items };
}

impl View {
    /// Makes the view of these deposits.
    pub(crate) fn new(deposits: Vec<Deposit>) -> Self
        ensures { result ≡ deposits.items }
    {
        View { deposits }
    }

    /// Returns the list of the deposits.
    pub(crate) fn into_deposits(self) -> Vec<Deposit>
        ensures { result.items ≡ self }
    {
        self.deposits
    }

    /// The deposits, in order.
    pub fn as_slice(&self) -> &[Deposit]
        ensures { result.now ≡ self.now }
    {
        self.deposits.as_slice()
    }
}

/// The view without deposits. It allocates no memory.
impl MadeWith<Global> for View {
    ghost use Rattle.std.specs.Prelude.{◌≡◌, []};

    ghost is_made_with = { λ v. v ≡ [] };

    fn made_with(alloc: Global) -> Self {
        View {
            deposits: Vec::new(alloc),
        }
    }
}
