//! The laws about a desk's report, and about a desk that returns none. These functions do nothing: their contracts are
//! the laws.

ghost use Rattle.std.specs.Prelude.{◌≡◌, ◌<◌, ◌≤◌, ℕ, All, Contains, List, Some, length, reverse};
ghost use Rattle.std.specs.Prelude.{slice_get};
ghost use Rattle.dmr_core.specs.Facts.{facts_after};
ghost use Rattle.dmr_core.specs.Journal.{IsLegal};
ghost use Rattle.dmr_core.specs.declared.entry.Entry.{Entry as AnEntry};
ghost use Rattle.dmr_link.specs.Runs.{IsSafe};
ghost use Rattle.dmr_desk.specs.Audited.{IsAudited, IsFault, deposits_of_seats};
ghost use Rattle.dmr_desk.specs.Seats.{HasSeat, Opened, SeatState};
ghost use Rattle.dmr_desk.specs.Views.{view_of};
ghost use Rattle.dmr_desk.specs.declared.fault.CloseFault.TheVariants.{Differs, SeatMissing};
ghost use Rattle.dmr_desk.specs.declared.report.Report.{Report as AReport};

/// States the facts about the report that [`close`](crate::SharedDesk::close) returns for a desk and these seats.
/// - The journal is legal from the site that the desk was opened with: each entry has the one answer of the site
///   machine.
/// - The journal has at most as many entries as the limit of the desk.
/// - The report's site has the same plan, and the facts that the journal leads to.
/// - There are as many views, and as many seats, as the desk has actors, and each actor has a seat.
/// - The deposits of a seat are its actor's view, and are exactly the journal's list for the actor, in the journal's
///   order.
/// - No entry belongs to another actor.
/// - The safety laws hold of the journal.
pub fn reports_account()
    ensures legal { (desk : Opened) (seats : List SeatState) (report : AReport)
        → IsAudited desk seats report
        → IsLegal desk.site.plan desk.site.facts (reverse report.journal) }
    ensures within { (desk : Opened) (seats : List SeatState) (report : AReport)
        → IsAudited desk seats report → length report.journal ≤ desk.limit }
    ensures site { (desk : Opened) (seats : List SeatState) (report : AReport)
        → IsAudited desk seats report → report.site ≡ record {
          plan = desk.site.plan;
          facts = facts_after desk.site.plan desk.site.facts (reverse report.journal);
        } }
    ensures as_many { (desk : Opened) (seats : List SeatState) (report : AReport)
        → IsAudited desk seats report → length report.views.items ≡ length seats }
    ensures actors { (desk : Opened) (seats : List SeatState) (report : AReport)
        → IsAudited desk seats report → length report.views.items ≡ desk.actors }
    ensures every_actor { (desk : Opened) (seats : List SeatState) (report : AReport) (actor : ℕ)
        → IsAudited desk seats report → actor < length seats → HasSeat seats actor }
    ensures views { (desk : Opened) (seats : List SeatState) (report : AReport) (seat : SeatState)
        → IsAudited desk seats report → Contains seats seat
        → (slice_get report.views.items seat.actor ≡ Some seat.deposits)
        × (seat.deposits ≡ view_of seat.actor report.journal) }
    ensures others { (desk : Opened) (seats : List SeatState) (report : AReport)
        → IsAudited desk seats report
        → All (λ (entry : AnEntry). entry.actor < length seats) report.journal }
    ensures safe { (desk : Opened) (seats : List SeatState) (report : AReport)
        → IsAudited desk seats report
        → IsSafe desk.site.plan desk.site.facts (reverse report.journal) }
{}

/// States facts about the fault that [`close`](crate::SharedDesk::close) may return for a desk and these seats.
/// - `SeatMissing` names an actor of the desk of which no seat was handed in.
/// - `Differs` is returned only if a seat has a deposit. Without deposits the journal is empty, and no seat differs
///   from it.
pub fn faults_account()
    ensures missing { (desk : Opened) (seats : List SeatState) (actor : ℕ)
        → IsFault desk seats (SeatMissing actor) → (actor < desk.actors) × ¬ HasSeat seats actor }
    ensures deposits { (desk : Opened) (seats : List SeatState) (actor : ℕ)
        → IsFault desk seats (Differs actor) → 0 < deposits_of_seats seats }
{}
