//! Terms whose ports fail at any call: the rows of `cases/links/failing_ports.txt`, as `cases/README.md` reads them. Each
//! compares the events of the peer's actor, the octets that its port took, and how its last connection ended. It also
//! checks that the link has nothing pending.

mod peers;
mod rows;

use self::peers::SitePeer;
use self::rows::ROWS;
use crate::kept::expect_same;
use crate::terms::meeting::Hold;
use crate::terms::spelling::write_letters;
use crate::terms::stage::{
    CONSOLE, Carrier, Opening, TermOutcome, TermStage, new_stage, port_of_actor, run,
};
use dmr_desk::Ending;
use dmr_frames::{Cause, Version};
use dmr_link::Ended;
use std::alloc::{AllocError, Global};
use std::process::Abort;
use std::sync::Wait;
use std::test::Fail;
use std::thread::Threads;

/// A limit of entries that no term here reaches.
const AMPLE: usize = 1000;

/// The expected result of a term.
#[derive(Clone, Copy)]
struct ExpectedTerm<'a> {
    peer: SitePeer,
    events: &'a str,
    octets: &'a str,
    ended: Ended,
}

/// The types of frames, in hexadecimal digits, each with its length in version 1 of the link and in version 2.
static TYPES: [(&str, usize, usize); 5] = [
    ("01", 4, 4),
    ("02", 26, 27),
    ("03", 0, 0),
    ("04", 1, 1),
    ("05", 0, 0),
];

/// Each row, under the line with its peer and its name.
#[test]
fn of_rows(rt: HostRuntime) -> Result<(), Fail> {
    for part in ROWS.split("== ").skip(1) {
        try_part(&rt, part)?;
    }
    Ok(())
}

/// Runs the terms of the rows under a line with a peer and a name.
fn try_part<R: Abort + AllocGlobal + Wait + Threads + Sync>(
    rt: &R,
    part: &str,
) -> Result<(), Fail> {
    let (peer, name, rows) = peer_of(part).ok_or("the peer of rows")?;
    for row in rows.lines() {
        try_rounds(rt, peer, name, row)?;
    }
    Ok(())
}

/// Returns the peer of rows, their name, and the rows.
fn peer_of(part: &str) -> Option<(SitePeer, &str, &str)> {
    let (title, rows) = part.split_once("\n")?;
    let (peer, name) = title.split_once(": ")?;
    Some((SitePeer::of_name(peer)?, name, rows))
}

/// Returns the first and last round of a row, and the words after them.
fn rounds_of(row: &str) -> Option<(usize, usize, &str)> {
    let (rounds, row) = row.split_once(": ")?;
    let (first, last) = rounds.split_once(" to ")?;
    Some((
        first.parse::<usize>().ok()?,
        last.parse::<usize>().ok()?,
        row,
    ))
}

/// Returns the steps of a row, and the expected result.
fn expected_of(peer: SitePeer, row: &str) -> Option<(&str, ExpectedTerm<'_>)> {
    let (steps, rest) = row.split_once(" => ")?;
    let (events, rest) = rest.split_once("; ")?;
    let (octets, ended) = rest.split_once("; ")?;
    let want = ExpectedTerm {
        peer,
        events: if events == "-" { "" } else { events },
        octets,
        ended: ended_of(ended)?,
    };
    Some((steps, want))
}

/// Runs the terms of a row, one in each of its rounds.
fn try_rounds<R: Abort + AllocGlobal + Wait + Threads + Sync>(
    rt: &R,
    peer: SitePeer,
    name: &str,
    row: &str,
) -> Result<(), Fail> {
    let (first, last, row) = rounds_of(row).ok_or("the rounds of a row")?;
    let (steps, want) = expected_of(peer, row).ok_or("a row")?;
    for round in first..=last {
        try_term(rt, name, steps, &want, round)?;
    }
    Ok(())
}

/// Each type of frame with each wrong length, before a HELLO and after one. Each length has two connections, and each
/// type and version of the link has one term. The octet of the length is the last that arrives, and the link reads no
/// further.
#[test]
fn lengths_of_frames(rt: HostRuntime) -> Result<(), Fail> {
    for (kind, first, later) in &TYPES {
        try_lengths(&rt, Version::V1, kind, *first, *first)?;
        try_lengths(&rt, Version::V2, kind, *first, *later)?;
    }
    Ok(())
}

/// Runs the term of a type of frames in this version of the link, with each length but the right one. `first` is the
/// right length of the first frame, which is of version 1, and `later` that of a later frame.
fn try_lengths<R: Abort + AllocGlobal + Wait + Threads + Sync>(
    rt: &R,
    version: Version,
    kind: &str,
    first: usize,
    later: usize,
) -> Result<(), Fail> {
    let octet = version.octet();
    let behind = format!(in rt.alloc(); "01040{octet}000001{kind}")?;
    let mut steps = String::new(rt.alloc());
    let mut events = String::new(rt.alloc());
    let mut octets = String::from_str(rt.alloc(), "0")?;
    for length in 0..256usize {
        if length != first {
            add_length(&mut steps, kind, length)?;
        }
        if length != later {
            add_length(&mut steps, behind.as_str(), length)?;
            events.push_str("UL")?;
            octets.push_str(" 3")?;
        }
    }
    let want = ExpectedTerm {
        peer: SitePeer::Carrier(version),
        events: events.as_str(),
        octets: octets.as_str(),
        ended: Ended::BadFrame(Cause::BadLength),
    };
    let calls = try_term(rt, kind, steps.as_str(), &want, later)?;
    // For each length: a connect and a read, then a connect, a read and a write. Then the last connect.
    expect_same(rt, kind, octet, calls, Some(5 * 255 + 1));
    Ok(())
}

/// Adds a connection with the octets before a length, and the length.
fn add_length(steps: &mut String, before: &str, length: usize) -> Result<(), AllocError> {
    if !steps.is_empty() {
        steps.push_str(", ")?;
    }
    write!(steps, "connect, hex {before}{length:02X}")
}

/// Returns a carrier whose port answers by these steps. Nothing is held.
fn free_carrier(steps: &str) -> Carrier<'_> {
    Carrier {
        steps,
        gate: Hold::Free,
        wait: Hold::Free,
    }
}

/// Returns a quiet site with one peer, whose port answers by these steps.
fn stage_of<'a>(
    alloc: Global,
    peer: SitePeer,
    steps: &str,
    round: usize,
) -> Result<TermStage<'a>, Fail> {
    let (carrier, operator, greatest) = match peer {
        SitePeer::Carrier(greatest) => (steps, "", greatest),
        SitePeer::Operator => ("", steps, Version::V1),
    };
    let opening = Opening {
        numbers: &[0, 1],
        first: free_carrier(carrier),
        second: free_carrier(""),
        greatest,
        paces: &[],
        pacer: Hold::Free,
        operator,
        input: (peer.input(), round),
    };
    new_stage(alloc, None, &opening)
}

/// Runs the term of these steps and compares its result. Returns the number of calls that the peer's port answered.
fn try_term<R: Abort + AllocGlobal + Wait + Threads + Sync>(
    rt: &R,
    name: &str,
    steps: &str,
    want: &ExpectedTerm<'_>,
    round: usize,
) -> Result<Option<usize>, Fail> {
    let stage = stage_of(rt.alloc(), want.peer, steps, round)?;
    let outcome = run(rt, rt.alloc(), stage, AMPLE)?;
    let compared = compare(rt, name, &outcome, want, round);
    drop(outcome);
    compared
}

/// Returns the ending with this name.
fn ended_of(name: &str) -> Option<Ended> {
    match name {
        "closed" => Some(Ended::Closed),
        "read fault" => Some(Ended::ReadFault),
        "write fault" => Some(Ended::WriteFault),
        "bad length" => Some(Ended::BadFrame(Cause::BadLength)),
        "bad slot" => Some(Ended::BadFrame(Cause::BadSlot)),
        "bad pad" => Some(Ended::BadFrame(Cause::BadPad)),
        "no hello" => Some(Ended::BadFrame(Cause::NoHello)),
        "second hello" => Some(Ended::BadFrame(Cause::SecondHello)),
        "unknown type" => Some(Ended::BadFrame(Cause::UnknownType)),
        _ => None,
    }
}

/// Compares the result of a term with the expected one. Returns the number of calls that the peer's port answered, or
/// `None` if it keeps no record.
fn compare(
    rt: &(impl Abort + AllocGlobal),
    name: &str,
    outcome: &TermOutcome<'_>,
    want: &ExpectedTerm<'_>,
    round: usize,
) -> Result<Option<usize>, Fail> {
    let actor = match want.peer {
        SitePeer::Carrier(_) => 0,
        SitePeer::Operator => CONSOLE,
    };
    let ends = [Ending::Finished; 4];
    expect_same(rt, name, round, outcome.ends.as_slice(), ends.as_slice());
    let mut letters = String::new(rt.alloc());
    write_letters(&mut letters, actor, &outcome.report.views)?;
    expect_same(rt, name, round, letters.as_str(), want.events);
    let entries = outcome.report.journal.as_slice().len();
    expect_same(rt, name, round, entries, want.events.len());
    let octets = want.peer.answered(rt.alloc(), want.octets, round)?;
    let octets = octets.ok_or("how many octets")?;
    let port = port_of_actor(outcome.stations.as_slice(), &outcome.console, actor);
    let port = port.ok_or("a port")?;
    expect_same(rt, name, round, port.taken(), octets.as_slice());
    let ended = ended_link(outcome, actor);
    expect_same(rt, name, round, ended, Some(want.ended));
    Ok(port.entries().map(|entries| entries.len()))
}

/// Returns how the last connection of the peer's link ended. `None` if the link is live.
fn ended_link(outcome: &TermOutcome<'_>, actor: usize) -> Option<Ended> {
    let (is_live, closing) = if actor == CONSOLE {
        let link = &outcome.console.link;
        (link.live(), link.closing())
    } else {
        let link = &outcome.stations.first()?.link;
        (link.live(), link.closing())
    };
    if is_live {
        None
    } else {
        Some(Ended::from(closing))
    }
}
