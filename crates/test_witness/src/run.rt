//! A caller of a term.

ghost use Rattle.std.specs.Prelude.{◌≡◌, ◌+◌, ◌⊎◌, ℕ, [], IfOk, List, None, Some, length, slice_get};
ghost use Rattle.std.specs.Prelude.{vec_len};
ghost use Rattle.dmr_wire.specs.Answers.{Answer};
ghost use Rattle.dmr_wire.specs.Recording.{reported_by};
ghost use Rattle.dmr_link.specs.Sessions.{HasPast};
ghost use Rattle.dmr_desk.specs.Pace.{AreTicks};
ghost use Rattle.dmr_desk.specs.Views.{view_of};
ghost use Rattle.dmr_desk.specs.Work.{station_state};
ghost use Rattle.test_witness.specs.Recorders.{passages_of_gate};
ghost use Rattle.test_witness.specs.Session.{IsWholeSession};

use crate::recorders::{CountingPacer, RecordingGate};
use crate::session::one_session;
use dmr_core::Site;
use dmr_desk::{ConsoleStation, Station, Term, TermFault, run_term};
use dmr_wire::MemoryPort;
use std::alloc::Global;
use std::sync::Wait;
use std::thread::Threads;

/// A carrier's station in memory.
pub type CarrierStation = Station<MemoryPort, RecordingGate>;

/// The operators' station in memory.
pub type Console = ConsoleStation<MemoryPort>;

/// Runs a term over ports, gates and a pacer that report their records, as [`run_term`] does.
///
/// Take a carrier that began with a new link, an empty record and an unpassed gate, and whose port still reports its
/// record at the end. It has a whole session: what came on its connections, by that record alone, means exactly what
/// the journal has of it, and then what is pending. The same holds of the operators. The ticker's view has a tick for
/// each that the pacer gave, but perhaps the last. On an error all arguments are used up.
pub fn run_recorded<R>(
    rt: &R,
    alloc: Global,
    site: Site,
    limit: usize,
    stations: Vec<CarrierStation>,
    pacer: CountingPacer,
    console: Console,
) -> Result<Term<CarrierStation, CountingPacer, Console>, TermFault>
where
    R: Wait + Threads + Sync,
    ensures carriers { IfOk result (λ t. (k : ℕ) (s u : _) (answers : List Answer)
        → slice_get stations.items k ≡ Some s → slice_get t.stations.items k ≡ Some u
        → HasPast s.link [] → reported_by s.port.recording ≡ Some []
        → passages_of_gate s.gate ≡ Some [] → reported_by u.port.recording ≡ Some answers
        → IsWholeSession (station_state u.link (reported_by u.port.recording)
        (passages_of_gate u.gate)) answers (view_of k t.report.journal)) }
    ensures operators { IfOk result (λ t. (answers : List Answer) → HasPast console.link []
        → reported_by console.port.recording ≡ Some []
        → reported_by t.console.port.recording ≡ Some answers
        → IsWholeSession (station_state t.console.link (reported_by t.console.port.recording) None)
        answers (view_of (vec_len stations + 1) t.report.journal)) }
    ensures ticks { IfOk result (λ t. AreTicks (view_of (vec_len stations) t.report.journal)
        × ((t.pacer.given
        ≡ pacer.given + length (view_of (vec_len stations) t.report.journal))
        ⊎ (t.pacer.given
        ≡ pacer.given + (length (view_of (vec_len stations) t.report.journal) + 1)))) }
{
    one_session();
    run_term(rt, alloc, site, limit, stations, pacer, console)
}
