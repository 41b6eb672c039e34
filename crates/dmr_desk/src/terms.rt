//! Terms in a row: each begins with the state that the one before it left, and an observer sees each.

ghost use Rattle.std.specs.Prelude.{◌≡◌, [], ◌∷◌, List, Option};
ghost use Rattle.dmr_core.specs.declared.entry.Entry.{Entry as AnEntry};
ghost use Rattle.dmr_desk.specs.Terms.{Sees};

use crate::pace::Pacer;
use crate::report::Report;
use crate::service::Service;
use crate::spare::SpareLists;
use crate::station::{ConsoleStation, Station};
use crate::term::Term;
use dmr_link::Gate;
use dmr_wire::Port;

/// Sees each term that has ended, in their order. `S` are its stations, `T` is its pacer, and `C` its console.
pub trait Observer<S, T, C> {
    /// If the observer reports it: the journals that it saw, oldest first. It may stop reporting at any call, and then
    /// never reports again.
    ghost seen: { Self → Option (List (List AnEntry)) };

    /// Sees a term that has ended. The next term writes to the memory of its journal.
    fn ended(&mut self, term: &Term<S, T, C>)
        ensures { Sees (seen self.old) (term.now.report.journal ∷ []) (seen self.new) };
}

impl<P, G, T, C> Term<Station<P, G>, T, ConsoleStation<C>>
where
    P: Port + Drop,
    G: Gate + Drop,
    T: Pacer + Drop,
    C: Port + Drop,
{
    /// Returns the state that the term left, with its lists for the next term.
    pub fn into_service(self) -> Service<P, G, T, C>
        ensures site { result.site ≡ self.report.site }
        ensures stations { result.stations ≡ self.stations }
        ensures pacer { result.pacer ≡ self.pacer }
        ensures console { result.console ≡ self.console }
    {
        let Term {
            report,
            stations,
            pacer,
            console,
            ..
        } = self;
        let Report {
            site,
            journal,
            views,
        } = report;
        Service {
            site,
            stations,
            pacer,
            console,
            spare: SpareLists::of_term(journal, views),
        }
    }
}
