//! The counts of a term.

ghost use Rattle.std.specs.Prelude.{◌≡◌, ◌≤◌, cond};
ghost use Rattle.std.specs.List.{list_any};
ghost use Rattle.dmr_core.specs.Sound.{is_grant as grants};
ghost use Rattle.dmr_keeper.specs.Counts.{counts_with};
ghost use Rattle.dmr_keeper.specs.Counts.{is_active as tells_activity, is_begun as begins};
ghost use Rattle.dmr_keeper.specs.Counts.{is_command as commands, is_granting as queues_a_grant};
ghost use Rattle.dmr_keeper.specs.Counts.{is_heard as hears, is_joined as joins};
ghost use Rattle.dmr_keeper.specs.Counts.{is_late_entry as fills_with_a_grant};
ghost use Rattle.dmr_keeper.specs.Counts.{is_noise as tells_noise, is_poll as polls};
ghost use Rattle.dmr_keeper.specs.Counts.{is_refusing as refuses, is_request as requests};
ghost use Rattle.dmr_keeper.specs.Ticks.{ticks_in};

use crate::notes::occurrence_of_act;
use crate::ticks::is_tick;
use dmr_core::{Act, Acts, Entry, Event};
use dmr_pdu::Pdu;

/// How often things happened in a term. A count of entries counts each entry once, however many acts of the kind it
/// has.
#[derive(Clone, Copy, Debug, PartialEq, Eq)]
pub struct TermCounts {
    /// The entries of the journal.
    pub entries: usize,
    /// The bursts from which a PDU was read.
    pub heard: usize,
    /// The requests among them: C_RAND, on any slot.
    pub requests: usize,
    /// The bursts from which no PDU could be read.
    pub noise: usize,
    /// The reports of activity on a slot.
    pub active: usize,
    /// The polls of carriers.
    pub polls: usize,
    /// The ticks.
    pub ticks: usize,
    /// The operators' commands.
    pub commands: usize,
    /// The entries that queue a grant, in one or more copies.
    pub grants: usize,
    /// The entries that send a late entry: a grant that fills the control slot.
    pub late_entries: usize,
    /// The entries in which a radio was registered.
    pub registrations: usize,
    /// The entries that refuse a request.
    pub refusals: usize,
    /// The entries in which a call began.
    pub begun: usize,
    /// The calls that ended.
    pub ended: usize,
    /// The most lines that waited at once: before the term, or after one of its entries.
    pub most_lines: usize,
}

fn is_heard(event: &Event) -> bool
    ensures { result ≡ hears event.now }
{
    matches!(event, Event::Heard(_, _))
}

fn is_request(event: &Event) -> bool
    ensures { result ≡ requests event.now }
{
    matches!(event, Event::Heard(_, Pdu::Random { .. }))
}

fn is_noise(event: &Event) -> bool
    ensures { result ≡ tells_noise event.now }
{
    matches!(event, Event::Noise(_))
}

fn is_active(event: &Event) -> bool
    ensures { result ≡ tells_activity event.now }
{
    matches!(event, Event::Active(_))
}

fn is_poll(event: &Event) -> bool
    ensures { result ≡ polls event.now }
{
    matches!(event, Event::Poll(_))
}

fn is_command(event: &Event) -> bool
    ensures { result ≡ commands event.now }
{
    matches!(event, Event::Say(_))
}

fn is_grant(pdu: &Pdu) -> bool
    ensures { result ≡ grants pdu.now }
{
    matches!(pdu, Pdu::PvGrant { .. } | Pdu::TvGrant { .. })
}

fn is_granting(act: &Act) -> bool
    ensures { result ≡ queues_a_grant act.now }
{
    match act {
        Act::Queue(_, pdu) => is_grant(pdu),
        _ => false,
    }
}

fn is_late_entry(act: &Act) -> bool
    ensures { result ≡ fills_with_a_grant act.now }
{
    match act {
        Act::Fill(_, pdu) => is_grant(pdu),
        _ => false,
    }
}

fn is_joined(act: &Act) -> bool
    ensures { result ≡ joins act.now }
{
    matches!(act, Act::Joined(_))
}

fn is_begun(act: &Act) -> bool
    ensures { result ≡ begins act.now }
{
    matches!(act, Act::Began(_))
}

fn is_refusing(act: &Act) -> bool
    ensures { result ≡ refuses act.now }
{
    occurrence_of_act(act).is_some()
}

/// The ticks of a journal.
pub fn count_ticks(journal: &[Entry]) -> usize
    ensures { result ≡ ticks_in journal.now }
{
    journal.iter().filter(|entry| is_tick(&entry.event)).count()
}

fn grants_any(acts: &Acts) -> bool
    ensures { result ≡ list_any queues_a_grant acts.now.list }
{
    acts.list.as_slice().iter().any(|act| is_granting(act))
}

fn fills_any(acts: &Acts) -> bool
    ensures { result ≡ list_any fills_with_a_grant acts.now.list }
{
    acts.list.as_slice().iter().any(|act| is_late_entry(act))
}

fn joins_any(acts: &Acts) -> bool
    ensures { result ≡ list_any joins acts.now.list }
{
    acts.list.as_slice().iter().any(|act| is_joined(act))
}

fn begins_any(acts: &Acts) -> bool
    ensures { result ≡ list_any begins acts.now.list }
{
    acts.list.as_slice().iter().any(|act| is_begun(act))
}

fn refuses_any(acts: &Acts) -> bool
    ensures { result ≡ list_any refuses acts.now.list }
{
    acts.list.as_slice().iter().any(|act| is_refusing(act))
}

/// 1 if it is so, and 0 if it is not.
pub fn one_if(is_so: bool) -> usize
    ensures counted { result ≡ cond is_so 1 0 }
    ensures few { result ≤ 1 }
{
    if is_so { 1 } else { 0 }
}

impl TermCounts {
    /// No entry.
    pub const NONE: TermCounts = TermCounts {
        entries: 0,
        heard: 0,
        requests: 0,
        noise: 0,
        active: 0,
        polls: 0,
        ticks: 0,
        commands: 0,
        grants: 0,
        late_entries: 0,
        registrations: 0,
        refusals: 0,
        begun: 0,
        ended: 0,
        most_lines: 0,
    };

    /// Counts the entries of a journal. How many calls ended, and how many lines waited, depends on the terms before
    /// it and is not counted: both are 0.
    pub fn of_entries(journal: &[Entry]) -> TermCounts
        ensures { result ≡ counts_with journal.now 0 0 }
    {
        counts_of(journal, 0, 0)
    }
}

/// The counts of a journal in which this many calls ended, and this many lines waited at once at most.
pub fn counts_of(journal: &[Entry], ended: usize, most_lines: usize) -> TermCounts
    ensures { result ≡ counts_with journal.now ended most_lines }
{
    let mut heard = 0;
    let mut requests = 0;
    let mut noise = 0;
    let mut active = 0;
    let mut polls = 0;
    let mut ticks = 0;
    let mut commands = 0;
    let mut grants = 0;
    let mut late_entries = 0;
    let mut registrations = 0;
    let mut refusals = 0;
    let mut begun = 0;
    for entry in journal {
        heard += one_if(is_heard(&entry.event));
        requests += one_if(is_request(&entry.event));
        noise += one_if(is_noise(&entry.event));
        active += one_if(is_active(&entry.event));
        polls += one_if(is_poll(&entry.event));
        ticks += one_if(is_tick(&entry.event));
        commands += one_if(is_command(&entry.event));
        grants += one_if(grants_any(&entry.acts));
        late_entries += one_if(fills_any(&entry.acts));
        registrations += one_if(joins_any(&entry.acts));
        refusals += one_if(refuses_any(&entry.acts));
        begun += one_if(begins_any(&entry.acts));
    }
    TermCounts {
        entries: journal.len(),
        heard,
        requests,
        noise,
        active,
        polls,
        ticks,
        commands,
        grants,
        late_entries,
        registrations,
        refusals,
        begun,
        ended,
        most_lines,
    }
}
