//! The state that continues from term to term, and why a term was not run, with what is left.

use crate::fault::TermFault;
use crate::spare::SpareLists;
use crate::station::{ConsoleStation, Station};
use crate::term::Term;
use dmr_core::Site;

/// The state that continues from term to term.
#[derive(Drop)]
pub struct Service<P, G, T, C> {
    /// The site.
    pub site: Site,
    /// A station for each carrier of the site's plan, by number.
    pub stations: Vec<Station<P, G>>,
    /// The pacer.
    pub pacer: T,
    /// The console.
    pub console: ConsoleStation<C>,
    /// The lists of the term before, for the next one.
    pub spare: SpareLists,
}

/// Why there is no term, with what is left.
#[derive(Drop)]
pub struct Refused<P, G, T, C> {
    /// The first fault that applies.
    pub fault: TermFault,
    /// The service as it was handed in, if no thread was started: at `BadStations` and at `Open`. At `OutOfMemory` some
    /// lists in `spare` may be lost, which contracts do not see. At the other faults this is `None`.
    pub left: Option<Service<P, G, T, C>>,
    /// The term as its workers left it, if they have ended: at `Early` and at `Audit`. Of an `Early` term all holds
    /// that holds of a term, except that the worker of this actor ended too early. At `Audit` the report is what the
    /// desk kept, and the view of this actor differs from the journal. At the other faults this is `None`.
    pub ended: Option<Term<Station<P, G>, T, ConsoleStation<C>>>,
}
