//! Scripts: what peers do, and when.
//!
//! A line has a time in milliseconds, a peer, and what the peer does: `100 2 sends abc`. A range of peers, as
//! `1000..4999`, does it one after the other.

use dmr_pdu::OutOfMemory;
use std::alloc::Global;

/// HELLO of version 1 for carrier 0 with LPCN 1.
const HELLO: &[u8] = &[0x01, 0x04, 0x01, 0x00, 0x00, 0x01];

/// HELLO of version 1 for carrier 1 with LPCN 1.
const OTHER: &[u8] = &[0x01, 0x04, 0x01, 0x01, 0x00, 0x01];

/// POLL.
const POLL: &[u8] = &[0x03, 0x00];

/// What happens at a time.
#[derive(Clone, Copy)]
pub enum Deed {
    /// `comes`: the peer connects.
    Comes,
    /// `hello`: the peer sends HELLO of version 1 for carrier 0 with LPCN 1; `other`: for carrier 1. `floods`: it sends
    /// 4,000 octets 0. `sends WORDS`: it sends the words; `says WORDS`: also a line feed, as another event. `polls N`: it
    /// sends POLL, and again each 60 ms, N times in all.
    Sends(&'static [u8]),
    /// `takes N`: from now on it takes N octets, and no more.
    Takes(usize),
    /// `ends`: it ends its output.
    Ends,
    /// `resets`: it resets the connection.
    Resets,
    /// `refuses`: no connection can be accepted. `accepts`: connections can be accepted again.
    Refuses(bool),
    /// `interrupts`: the next accept, read and write are interrupted once.
    Interrupts,
    /// `stops N`: the program is stopped for N milliseconds.
    Stops(u64),
    /// `storms N`: the next N waits end at once with newcomers, and each fourth takes a millisecond.
    Storms(usize),
    /// `?`: unknown words.
    Unknown,
}

/// What a peer does at a time.
#[derive(Clone, Copy)]
pub struct Event {
    /// The milliseconds of the clock.
    pub at: u64,
    /// The peer.
    pub peer: usize,
    /// What it does.
    pub deed: Deed,
}

/// The deed of its words.
fn deed_of(words: &'static str) -> Deed {
    let (first, rest) = words.split_once(' ').unwrap_or((words, ""));
    match first {
        "comes" => Deed::Comes,
        "hello" => Deed::Sends(HELLO),
        "other" => Deed::Sends(OTHER),
        "polls" => Deed::Sends(POLL),
        "sends" | "says" => Deed::Sends(rest.as_bytes()),
        "floods" => Deed::Sends(&[0; 4000]),
        "takes" => Deed::Takes(rest.parse::<usize>().unwrap_or(0)),
        "ends" => Deed::Ends,
        "resets" => Deed::Resets,
        "refuses" => Deed::Refuses(true),
        "accepts" => Deed::Refuses(false),
        "interrupts" => Deed::Interrupts,
        "storms" => Deed::Storms(rest.parse::<usize>().unwrap_or(0)),
        "stops" => Deed::Stops(rest.parse::<u64>().unwrap_or(0)),
        _ => Deed::Unknown,
    }
}

/// The peers that a word names: one, or the first and last of a range.
fn peers_of(word: &str) -> (usize, usize) {
    let (first, last) = word.split_once("..").unwrap_or((word, word));
    (
        first.parse::<usize>().unwrap_or(0),
        last.parse::<usize>().unwrap_or(0),
    )
}

/// Adds the events of a line.
fn add_line(events: &mut Vec<Event>, line: &'static str) -> Result<(), OutOfMemory> {
    let (time, rest) = line.split_once(' ').unwrap_or((line, ""));
    let (peers, words) = rest.split_once(' ').unwrap_or((rest, ""));
    let (first, last) = peers_of(peers);
    let at = time.parse::<u64>().unwrap_or(0);
    let deed = deed_of(words);
    let times = match words.strip_prefix("polls ") {
        Some(number) => number.parse::<u64>().unwrap_or(0),
        None => 1,
    };
    for peer in first..=last {
        for time in 0..times {
            let at = at.saturating_add(time.saturating_mul(60));
            events.push(Event { at, peer, deed })?;
            if words.starts_with("says ") {
                let deed = Deed::Sends(b"\n");
                events.push(Event { at, peer, deed })?;
            }
        }
    }
    Ok(())
}

/// The events of a script, earliest first.
pub fn events_of(alloc: Global, script: &'static str) -> Result<Vec<Event>, OutOfMemory> {
    let mut events = Vec::new(alloc);
    for line in script.lines() {
        add_line(&mut events, line)?;
    }
    events.sort_by_key(|event| event.at)?;
    Ok(events)
}
