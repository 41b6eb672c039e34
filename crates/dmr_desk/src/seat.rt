//! A seat at the desk.

ghost use Rattle.std.specs.Prelude.{◌≡◌, ◌<◌, ◌≤◌, ◌+◌, [], length, IfOk, IfErr, OnOk};
ghost use Rattle.dmr_desk.specs.BookState.{answer_to, book_with_entry};
ghost use Rattle.dmr_desk.specs.Seats.{seat_with_deposit};

use crate::book::Book;
use crate::desk_ledger::DeskLedger;
use crate::room::push_copy;
use crate::spare::SpareLists;
use crate::view::deposit_of;
use dmr_core::{Acts, Event};
use dmr_link::{Deposit, TermOver};
use dmr_pdu::OutOfMemory;
use std::alloc::Global;
use std::marker::Model;
use std::sync::ledger;
use std::sync::ledger::Share;

/// One actor's place at a desk: the actor's number and the deposits, in order. Contracts see both. By the ledger `L` it
/// fits only the desk that it was opened with, and its actor is one of that desk's. It has room for as many deposits as
/// that desk's journal may have entries.
#[derive(Drop)]
pub struct Seat<L: DeskLedger> {
    actor: u8,
    deposits: Vec<Deposit>,
    limit: usize,
    share: Share<L>,
}

impl<L: DeskLedger> Model for Seat<L> {
    ghost use Rattle.std.specs.Prelude.{◌≡◌, ◌<◌, ◌≤◌, vec_len, vec_capacity};
    ghost use Rattle.dmr_desk.specs.Seats.{SeatState};

    ghost Value = { SeatState };

    ghost view = { λ s. record { actor = s.actor; deposits = s.deposits.items } };

    ghost invariant = { λ s. (s.share.parts ≡ 1) × (s.share.amount ≡ vec_len s.deposits)
        × (s.limit ≤ vec_capacity s.deposits) × (s.actor < L.desk.actors) };
}

impl<L: DeskLedger> Seat<L> {
    /// Makes the seat of an actor of the ledger's desk, with room for `limit` deposits. If a list with the room is
    /// kept, its memory is used. On an error an allocation was refused.
    pub(crate) fn new(
        alloc: Global,
        spare: &mut SpareLists,
        actor: u8,
        limit: usize,
        share: Share<L>,
    ) -> Result<Seat<L>, OutOfMemory>
        requires known { actor < L.desk.actors }
        requires part { share.parts ≡ 1 }
        requires idle { share.amount ≡ 0 }
        ensures { IfOk result (λ seat. seat ≡ record { actor = actor; deposits = [] }) }
    {
        let deposits = spare.take_deposits(alloc, limit)?;
        Ok(Seat {
            actor,
            deposits,
            limit,
            share,
        })
    }

    /// Makes the error of a refused deposit, with the number of the book's entries. If the ledger counts the book's
    /// entries, that is at least the number of deposits from this seat. Nothing changes.
    pub(crate) fn refusal(&mut self, book: &Book, total: &mut ledger::Book<L>) -> TermOver
        ensures seat { self.new ≡ self.old }
        ensures total { total.new.total ≡ total.old.total }
        ensures among { length self.old.deposits ≤ total.old.total }
        ensures entries { result.entries ≡ length book.now.entries }
    {
        // It counts nothing, and shows that the seat's part is at most the total.
        total.audit(&mut self.share);
        TermOver {
            entries: book.len(),
        }
    }

    /// Applies an event to the book for this actor, counts it in the ledger, and keeps it with the answer. `acts`
    /// becomes the answer, whatever it was before. On an error the book or the seat has no room, and nothing has
    /// changed, `acts` neither; the error has the number of the book's entries.
    pub(crate) fn apply_event_to(
        &mut self,
        book: &mut Book,
        total: &mut ledger::Book<L>,
        event: &Event,
        acts: &mut Acts,
    ) -> Result<(), TermOver>
        ensures acts { OnOk result (acts.new ≡ answer_to book.old event.now) }
        ensures entered { OnOk result
            (book.new ≡ book_with_entry book.old self.old.actor event.now acts.new) }
        ensures deposited { OnOk result
            (self.new ≡ seat_with_deposit self.old event.now acts.new) }
        ensures counted { OnOk result (total.new.total ≡ total.old.total + 1) }
        ensures known { self.old.actor < L.desk.actors }
        ensures among { IfErr result (λ over. length self.old.deposits ≤ total.old.total) }
        ensures over { IfErr result (λ over. (book.new ≡ book.old) × (self.new ≡ self.old)
            × (acts.new ≡ acts.old) × (total.new.total ≡ total.old.total)
            × (over.entries ≡ length book.old.entries)) }
    {
        // If the seat is full, the book is full too, since each deposit is an entry. No contract says so: nothing ties
        // the two limits.
        if self.deposits.len() >= self.limit {
            return Err(self.refusal(book, total));
        }
        if book.apply_to(self.actor, event, acts).is_err() {
            return Err(self.refusal(book, total));
        }
        total.add(&mut self.share, 1);
        push_copy(&mut self.deposits, &deposit_of(event, acts));
        Ok(())
    }

    /// Returns the deposits, and the seat's part of the ledger, whose amount is their number.
    pub(crate) fn into_parts(self) -> (Vec<Deposit>, Share<L>)
        ensures deposits { result.0.items ≡ self.deposits }
        ensures part { result.1.parts ≡ 1 }
        ensures amount { result.1.amount ≡ length self.deposits }
    {
        let Seat {
            deposits,
            share,
            ..
        } = self;
        (deposits, share)
    }

    /// The actor's number.
    pub fn actor(&self) -> u8
        ensures { result ≡ self.now.actor }
    {
        self.actor
    }

    /// The deposits from this seat, in order: the events and their answers.
    pub fn deposits(&self) -> &[Deposit]
        ensures { result.now ≡ self.now.deposits }
    {
        self.deposits.as_slice()
    }
}
