//! The desk: a book that a lock guards, and its seats.

ghost use Rattle.std.specs.Prelude.{◌≡◌, ◌≤◌, ◌+◌, ◌↔◌, ◌⊎◌, length, true, false, IsTrue, IfOk};
ghost use Rattle.std.specs.Prelude.{IfErr, OnOk};
ghost use Rattle.dmr_desk.specs.Audited.{IsAudited, IsFault, IsKept, IsLeastMissing, IsUnreported};
ghost use Rattle.dmr_desk.specs.BookState.{AreOfActors, answer_to, book_with_entry};
ghost use Rattle.dmr_desk.specs.Limits.{most_actors};
ghost use Rattle.dmr_desk.specs.Opening.{IsBlankFor, IsLimit, IsNumber, IsRefused};
ghost use Rattle.dmr_desk.specs.Seats.{empty_seats, opened, seat_with_deposit};

use crate::audit::{audit_report, first_differing_alone, first_differing_in_threads, gather_views};
use crate::book::Book;
use crate::desk_ledger::DeskLedger;
use crate::fault::{CloseFault, OpenFault};
use crate::limits::{MOST_ACTORS, MOST_ENTRIES};
use crate::report::{Report, Unreported};
use crate::seat::Seat;
use crate::spare::SpareLists;
use dmr_core::{Acts, Event, Site};
use dmr_link::TermOver;
use dmr_pdu::OutOfMemory;
use std::alloc::Global;
use std::marker::Model;
use std::sync::atomic::{AtomicBool, Ordering};
use std::sync::ledger::{Blank, Share};
use std::sync::{Mutex, Wait, ledger};
use std::thread::Threads;

/// The content of the lock. `total` is the ledger's total, which is the number of the book's entries. `rest` has the
/// parts of the ledger that no seat has. `actors` is the number of seats. By its type, the content belongs to the desk
/// that the ledger names, and each entry to an actor of that desk.
#[derive(Drop)]
struct Locked<L: DeskLedger> {
    book: Book,
    total: ledger::Book<L>,
    rest: Share<L>,
    actors: u8,
    abandoned: bool,
    ghost of_desk: { L.desk ≡ opened book.opening book.limit actors },
    ghost counted: { length book.entries ≡ total.total },
    ghost known: { AreOfActors actors book.entries },
    ghost rest_is: { rest.parts + actors ≡ most_actors },
    ghost rest_idle: { rest.amount ≡ 0 },
}

impl<L: DeskLedger> Locked<L> {
    /// Applies an event to the site for a seat. `acts` becomes the answer, whatever it was before. On an error the book
    /// has no room or the desk was abandoned; nothing has changed, `acts` neither, and the error has the number of the
    /// book's entries.
    fn deposit_to(
        &mut self,
        seat: &mut Seat<L>,
        event: &Event,
        acts: &mut Acts,
    ) -> Result<(), TermOver>
        ensures acts { OnOk result (acts.new ≡ answer_to self.old.book event.now) }
        ensures entered { OnOk result (self.new.book
            ≡ book_with_entry self.old.book seat.old.actor event.now acts.new) }
        ensures deposited { OnOk result
            (seat.new ≡ seat_with_deposit seat.old event.now acts.new) }
        ensures over { IfErr result (λ over. (self.new.book ≡ self.old.book) × (seat.new ≡ seat.old)
            × (acts.new ≡ acts.old) × (over.entries ≡ length self.old.book.entries)) }
        ensures among { IfErr result (λ over. length seat.old.deposits ≤ over.entries) }
        ensures taken { OnOk result (self.old.abandoned ≡ false) }
        ensures abandoned { self.new.abandoned ≡ self.old.abandoned }
    {
        let Locked {
            book,
            total,
            abandoned,
            ..
        } = self;
        if *abandoned {
            return Err(seat.refusal(book, total));
        }
        seat.apply_event_to(book, total, event, acts)
    }

    /// Whether the term is over: the book is at its limit, or the desk was abandoned.
    fn is_over(&self) -> bool
        ensures { IsTrue result
            ↔ ((length self.now.book.entries ≡ self.now.book.limit) ⊎ (self.now.abandoned ≡ true)) }
    {
        self.abandoned || self.book.is_full()
    }

    /// Abandons the desk permanently. The book does not change.
    fn abandon(&mut self)
        ensures abandoned { self.new.abandoned ≡ true }
        ensures book { self.new.book ≡ self.old.book }
    {
        self.abandoned = true;
    }

    /// Returns what the desk kept: the site, the journal, and the view of each actor, moved out of its seat. The views
    /// are not compared with the journal. The error is the least actor whose seat is missing.
    fn gather(self, seats: Vec<Seat<L>>) -> Result<Report, u8>
        requires { L.parts ≡ most_actors }
        ensures kept { IfOk result (IsKept L.desk seats.items) }
        ensures journal { IfOk result (λ kept. kept.journal ≡ self.book.entries) }
        ensures missing { IfErr result (IsLeastMissing seats.items L.desk.actors) }
    {
        let Locked {
            book,
            mut total,
            rest,
            actors,
            ..
        } = self;
        book.use_invariant();
        match gather_views(seats, rest, actors) {
            Ok((views, mut all)) => {
                total.audit(&mut all);
                let (site, journal) = book.into_parts();
                Ok(Report {
                    site,
                    journal,
                    views,
                })
            }
            Err(actor) => {
                drop(book);
                Err(actor)
            }
        }
    }
}

/// Returns the seats of the actors 0 to `actors - 1`, from lists that are kept if there are any. Each has one part of
/// `rest`, in which nothing is counted yet. On an error an allocation was refused.
fn seats_for<L: DeskLedger>(
    alloc: Global,
    spare: &mut SpareLists,
    rest: &mut Share<L>,
    limit: usize,
    actors: u8,
) -> Result<Vec<Seat<L>>, OutOfMemory>
    requires known { actors ≤ L.desk.actors }
    requires parts { actors ≤ rest.old.parts }
    requires idle { rest.old.amount ≡ 0 }
    ensures seats { IfOk result (λ seats. seats.items ≡ empty_seats actors) }
    ensures parts { OnOk result (rest.new.parts + actors ≡ rest.old.parts) }
    ensures idle { rest.new.amount ≡ 0 }
{
    let mut seats = Vec::with_capacity(alloc, actors as usize)?;
    for actor in 0..actors {
        let seat = Seat::new(alloc, spare, actor, limit, rest.split_off(1, 0))?;
        seats.push_reserved(seat);
    }
    Ok(seats)
}

/// One site to which many threads apply events, one at a time. Contracts see the site at its opening, the limit of the
/// journal and the number of actors, as the desk's ledger names them. Contracts cannot name the content of the lock;
/// the report shows it when the desk is closed.
#[derive(Drop)]
pub struct SharedDesk<L: DeskLedger> {
    locked: Mutex<Locked<L>>,
    // Whether the term is over. It is set while the lock is held, by the deposit that fills the journal.
    is_over: AtomicBool,
}

impl<L: DeskLedger> Model for SharedDesk<L> {
    ghost use Rattle.dmr_desk.specs.Seats.{Opened};

    ghost Value = { Opened };

    ghost view = { λ d. L.desk };
}

impl<L: DeskLedger> SharedDesk<L> {
    /// Opens a desk for a site, and returns it with the seats of `actors` actors (1 to 18), numbered from 0, in this
    /// order. The journal may have `limit` entries (1 to 100,000). The journal and each seat have room for `limit` from
    /// the beginning. The blank belongs to the ledger `L`, of [`PARTS`](crate::PARTS) parts, and the ledger names this
    /// site, this limit and this number of actors ([`DeskLedger`]). The error is the first fault that applies, in the
    /// order of [`OpenFault`]. It returns the site unchanged; the blank is used up.
    pub fn open(
        alloc: Global,
        blank: Blank,
        site: Site,
        limit: usize,
        actors: u8,
    ) -> Result<(SharedDesk<L>, Vec<Seat<L>>), (OpenFault, Site)>
        requires { IsBlankFor L.name L.parts L.desk (opened site limit actors) blank }
        ensures numbers { OnOk result (IsLimit limit × IsNumber actors) }
        ensures desk { IfOk result (λ o. o.0 ≡ opened site limit actors) }
        ensures seats { IfOk result (λ o. o.1.items ≡ empty_seats actors) }
        ensures fault { IfErr result (λ refused. IsRefused limit actors refused.0) }
        ensures site { IfErr result (λ refused. refused.1 ≡ site) }
    {
        if limit == 0 || limit > MOST_ENTRIES {
            return Err((OpenFault::BadLimit, site));
        }
        if actors == 0 || usize::from(actors) > MOST_ACTORS {
            return Err((OpenFault::BadActors, site));
        }
        let mut spare = SpareLists::new(alloc);
        match SharedDesk::<L>::open_with(alloc, blank, site, limit, actors, &mut spare) {
            Ok(made) => Ok(made),
            Err(site) => Err((OpenFault::OutOfMemory, site)),
        }
    }

    /// Opens a desk as [`open`](SharedDesk::open) does, of a limit and a number of actors that are in range. If lists
    /// with the room are kept, their memory is used. On an error an allocation was refused. If the limit is that of the
    /// term before, none of the lists is then lost.
    pub(crate) fn open_with(
        alloc: Global,
        blank: Blank,
        site: Site,
        limit: usize,
        actors: u8,
        spare: &mut SpareLists,
    ) -> Result<(SharedDesk<L>, Vec<Seat<L>>), Site>
        requires blank { IsBlankFor L.name L.parts L.desk (opened site limit actors) blank }
        requires numbers { IsLimit limit × IsNumber actors }
        ensures desk { IfOk result (λ o. o.0 ≡ opened site limit actors) }
        ensures seats { IfOk result (λ o. o.1.items ≡ empty_seats actors) }
        ensures site { IfErr result (λ back. back ≡ site) }
    {
        let (total, mut rest) = blank.open::<L>();
        let book = match Book::with_lists(alloc, site, limit, spare) {
            Ok(book) => book,
            Err((_, site)) => return Err(site),
        };
        match seats_for(alloc, spare, &mut rest, limit, actors) {
            Ok(seats) => {
                let locked = Mutex::new(Locked {
                    book,
                    total,
                    rest,
                    actors,
                    abandoned: false,
                });
                let is_over = AtomicBool::new(false);
                Ok((SharedDesk { locked, is_over }, seats))
            }
            Err(_) => {
                let (site, journal) = book.into_parts();
                spare.keep_journal(journal);
                Err(site)
            }
        }
    }

    /// Applies an event to the site from a seat, and returns the site's answer, which the seat keeps with the event. It
    /// waits for the lock, so the threads' events are applied one at a time. It allocates no memory. On an error the
    /// journal is at its limit, or a thread of the desk's term could not be started. The site has not received the
    /// event, and nothing has changed. `entries` is the length of the journal, which is at least the number of deposits
    /// from this seat. The clauses describe the seat alone; the report shows the site and the journal, which the lock
    /// guards.
    pub fn deposit<R: Wait>(
        &self,
        rt: &R,
        seat: &mut Seat<L>,
        event: Event,
    ) -> Result<Acts, TermOver>
        ensures ok { IfOk result (λ acts. seat.new ≡ seat_with_deposit seat.old event acts) }
        ensures over { IfErr result (λ over. (seat.new ≡ seat.old)
            × (length seat.old.deposits ≤ over.entries)) }
    {
        let mut acts = Acts::none();
        self.deposit_to(rt, seat, &event, &mut acts)?;
        Ok(acts)
    }

    /// Does the same as [`deposit`](SharedDesk::deposit). `acts` becomes the answer, whatever it was before. On an
    /// error `acts` is unchanged too.
    pub(crate) fn deposit_to<R: Wait>(
        &self,
        rt: &R,
        seat: &mut Seat<L>,
        event: &Event,
        acts: &mut Acts,
    ) -> Result<(), TermOver>
        ensures ok { OnOk result (seat.new ≡ seat_with_deposit seat.old event.now acts.new) }
        ensures over { IfErr result (λ over. (seat.new ≡ seat.old)
            × (length seat.old.deposits ≤ over.entries)) }
        ensures acts { IfErr result (λ _. acts.new ≡ acts.old) }
    {
        let mut locked = self.locked.lock(rt);
        let answer = locked.deposit_to(seat, event, acts);
        if locked.is_over() {
            self.is_over.store(true, Ordering::SeqCst);
        }
        answer
    }

    /// Whether the journal is at its limit, or a thread of the desk's term could not be started. It looks at a flag and
    /// does not wait for the lock. The deposit that fills the journal sets the flag before it releases the lock. No
    /// clause describes the result: contracts cannot name the content of the lock or of the flag.
    pub fn over<R: Wait>(&self, _rt: &R) -> bool {
        self.is_over.load(Ordering::SeqCst)
    }

    /// Abandons the desk, because a thread of its term could not be started. From now on the desk takes no event, and
    /// [`over`](SharedDesk::over) returns true. It waits for the lock. The journal does not change. No clause says so:
    /// contracts cannot name the content of the lock.
    pub(crate) fn abandon<R: Wait>(&self, rt: &R) {
        self.locked.lock(rt).abandon();
        self.is_over.store(true, Ordering::SeqCst);
    }

    /// Closes the desk, with its seats in any order. The report has the site, the journal, and the view of each actor,
    /// moved out of its seat; [`reports_account`](crate::reports_account) has all that holds of it. It allocates no
    /// memory. On an error a seat is missing, and the error names the least such actor. If none is missing, a seat
    /// differs from the journal, and the error names the least such actor. The site, the journal and the seats are then
    /// lost. If a seat differs, the clause cannot name the journal, which the lock guarded. It says of the journal that
    /// it is legal from the desk's site, within the desk's limit, has one entry for each deposit of all seats, and no
    /// entry of anybody but the desk's actors. What is done under the lock names it (`Locked::gather`).
    pub fn close<R: Wait>(self, _rt: &R, seats: Vec<Seat<L>>) -> Result<Report, CloseFault>
        requires { L.parts ≡ most_actors }
        ensures ok { IfOk result (IsAudited self seats.items) }
        ensures fault { IfErr result (IsFault self seats.items) }
    {
        let SharedDesk { locked, .. } = self;
        match locked.into_inner().gather(seats) {
            Ok(kept) => {
                let differing = first_differing_alone(&kept);
                match audit_report(kept, differing) {
                    Ok(report) => Ok(report),
                    Err(unreported) => {
                        let Unreported { fault, kept } = unreported;
                        drop(kept);
                        Err(fault)
                    }
                }
            }
            Err(actor) => Err(CloseFault::SeatMissing(actor)),
        }
    }

    /// Closes the desk as [`close`](SharedDesk::close) does. If the journal is long, several threads compare it with
    /// the seats. The error also has what the desk kept, if no seat is missing.
    pub(crate) fn close_in_threads<R: Threads + Sync>(
        self,
        rt: &R,
        seats: Vec<Seat<L>>,
    ) -> Result<Report, Unreported>
        requires { L.parts ≡ most_actors }
        ensures ok { IfOk result (IsAudited self seats.items) }
        ensures fault { IfErr result (λ unreported. IsUnreported self seats.items
            unreported.fault unreported.kept) }
    {
        let SharedDesk { locked, .. } = self;
        match locked.into_inner().gather(seats) {
            Ok(kept) => {
                let differing = first_differing_in_threads(rt, &kept);
                audit_report(kept, differing)
            }
            Err(actor) => Err(Unreported {
                fault: CloseFault::SeatMissing(actor),
                kept: None,
            }),
        }
    }
}
