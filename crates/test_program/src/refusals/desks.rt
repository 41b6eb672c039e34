//! Calls of the book and the shared desk. Both return their site if memory is refused.

ghost use Rattle.dmr_desk.specs.Opening.{IsBlankFor};
ghost use Rattle.dmr_desk.specs.Seats.{opened};

use crate::refusals::calls::{busy_site, go_on_alike};
use crate::refusals::verdict::{Verdict, verdict_if};
use dmr_core::Site;
use dmr_desk::{Book, DeskLedger, OpenFault, PARTS, SharedDesk};
use std::alloc::Global;
use std::marker::Brand;
use std::sync::ledger::Blank;

/// Makes a book.
pub fn new_book(alloc: Global) -> Verdict {
    let Some((site, other)) = busy_site(alloc).zip(busy_site(alloc)) else {
        return Verdict::NotTried;
    };
    match Book::new(alloc, site, 100) {
        Ok(book) => {
            drop(book);
            drop(other);
            Verdict::Done
        }
        Err((_, back)) => verdict_if(go_on_alike(back, other), Verdict::Refused),
    }
}

/// Opens a desk for four actors.
pub fn open_desk(alloc: Global) -> Verdict {
    let Some((site, other)) = busy_site(alloc).zip(busy_site(alloc)) else {
        return Verdict::NotTried;
    };
    match refusal_of_desk::<Brand>(alloc, Blank::new(PARTS), site) {
        None => {
            drop(other);
            Verdict::Done
        }
        Some((OpenFault::OutOfMemory, back)) => {
            verdict_if(go_on_alike(back, other), Verdict::Refused)
        }
        Some((_, back)) => {
            drop(back);
            drop(other);
            Verdict::Wrong
        }
    }
}

/// Returns why a desk is not opened, and its site.
fn refusal_of_desk<L: DeskLedger>(
    alloc: Global,
    blank: Blank,
    site: Site,
) -> Option<(OpenFault, Site)>
    requires { IsBlankFor L.name L.parts L.desk (opened site 100 4) blank }
{
    SharedDesk::<L>::open(alloc, blank, site, 100, 4).err()
}
