//! A link, a port and a desk as a listener of stories.
//!
//! Inputs:
//!
//! - `begin` and steps: replaces the link by a new one and opens it, with a port of these steps and the desk of a new
//!   site. The term has room for all events of the story.
//! - `port` and steps: replaces the port.
//! - `term N`: begins another term of the same site, with room for N events.
//! - `open`, `live`, `serve` and `cut`: calls of the link.
//! - `serve N`: serves the link with a gate that is shut at the Nth entry, or never if N is 0. `serve` alone uses an
//!   open gate.
//! - `again`: as `serve`, but answers `same` if it ends as the last serve did.
//! - `reads` and `writes`: ask how many reads and writes the port has answered.
//!
//! The answer to `serve` and `cut` is how the call ended, the events that the desk took meanwhile, and the octets that
//! the port has taken so far. With a gate, the numbers of its entries and exits follow.

use super::LinkStory;
use super::answers::{word_of_ended, write_events, write_taken};
use super::desk::ListDesk;
use super::gate::CountingGate;
use super::peer::{LinkKind, TestedLink};
use super::steps::steps_of;
use crate::language::words::{cut, replace_with, write_number, write_truth};
use crate::language::{Listener, run_part};
use crate::site_file::{SMALL, plan_of};
use dmr_core::Site;
use dmr_link::{Deposit, Ended};
use dmr_pdu::OutOfMemory;
use dmr_plan::Plan;
use dmr_wire::{MemoryPort, RecordEntry, Step};
use std::alloc::Global;
use std::process::Abort;
use std::test::Fail;

/// The room of a port's record, in entries and in octets.
const ROOM: usize = 4096;

/// The number of events that a term has room for, if the story sets no other.
const AMPLE: usize = 100;

/// A link with its port and its desk.
#[derive(Drop)]
struct LinkStage {
    alloc: Global,
    plan: Plan,
    peer: TestedLink,
    port: MemoryPort,
    desk: ListDesk,
    /// The number of this term's events that have been written as answers.
    seen: usize,
    /// How the last `serve` ended.
    ended: Option<Ended>,
}

/// Runs each story with a link of this kind, and then the lines `behind`.
pub fn run_stories(
    rt: &(impl Abort + AllocGlobal),
    kind: LinkKind,
    stories: &[LinkStory],
    behind: &str,
) -> Result<(), Fail> {
    for (name, story) in stories {
        let stage = stage_of(rt.alloc(), kind)?;
        run_story(rt, stage, *name, *story, behind)?;
    }
    Ok(())
}

/// Runs a story, and then the lines `behind`.
fn run_story<L: Listener + Drop>(
    rt: &(impl Abort + AllocGlobal),
    mut stage: L,
    name: &str,
    story: &str,
    behind: &str,
) -> Result<(), OutOfMemory> {
    run_part(rt, &mut stage, name, story)?;
    run_part(rt, &mut stage, name, behind)
}

/// Returns a link with a port without steps and the desk of a new site.
fn stage_of(alloc: Global, kind: LinkKind) -> Result<LinkStage, Fail> {
    let plan = plan_of(alloc, SMALL)?;
    let port = port_of(alloc, Vec::new(alloc))?;
    match desk_of(alloc, plan) {
        Ok(desk) => Ok(LinkStage {
            alloc,
            plan,
            peer: TestedLink::new(kind),
            port,
            desk,
            seen: 0,
            ended: None,
        }),
        Err(refused) => {
            drop(port);
            Err(refused.into())
        }
    }
}

/// Returns a port of these steps.
fn port_of(alloc: Global, steps: Vec<Step>) -> Result<MemoryPort, OutOfMemory> {
    match MemoryPort::new(alloc, steps, ROOM) {
        Ok(port) => Ok(port),
        Err((refused, _)) => Err(refused),
    }
}

/// Returns the desk of a new site.
fn desk_of(alloc: Global, plan: Plan) -> Result<ListDesk, OutOfMemory> {
    ListDesk::new(alloc, 0, Site::new(alloc, plan)?, AMPLE)
}

impl Listener for LinkStage {
    fn answer_input(&mut self, input: &str, said: &mut String) -> Result<(), OutOfMemory> {
        let (word, rest) = cut(input);
        match word {
            "begin" => self.begin(rest, said),
            "port" => self.take_port(rest, said),
            "term" => self.begin_term(rest, said),
            "open" => write_truth(said, self.peer.open()),
            "live" => write_truth(said, self.peer.live()),
            "serve" => self.serve(rest, false, said),
            "again" => self.serve(rest, true, said),
            "cut" => self.cut(said),
            "reads" => write_number(said, self.calls().0),
            "writes" => write_number(said, self.calls().1),
            _ => said.push_str("?"),
        }
    }
}

/// Writes the events from a place on.
fn write_from(said: &mut String, calls: &[Deposit], seen: usize) -> Result<(), OutOfMemory> {
    write_events(said, calls.get(seen..).unwrap_or(&[]))
}

impl LinkStage {
    /// Replaces the link, the desk and the port, and opens the link.
    fn begin(&mut self, steps: &str, said: &mut String) -> Result<(), OutOfMemory> {
        self.peer = TestedLink::new(self.peer.kind);
        replace_with(&mut self.desk, desk_of(self.alloc, self.plan)?);
        self.seen = 0;
        if !self.peer.open() {
            said.push_str("?")?;
        }
        self.take_port(steps, said)
    }

    /// Replaces the port by one of these steps.
    fn take_port(&mut self, steps: &str, said: &mut String) -> Result<(), OutOfMemory> {
        match steps_of(self.alloc, self.peer.kind.input(), steps)? {
            Some(steps) => replace_with(&mut self.port, port_of(self.alloc, steps)?),
            None => said.push_str("?")?,
        }
        Ok(())
    }

    /// Begins another term of the site.
    fn begin_term(&mut self, limit: &str, said: &mut String) -> Result<(), OutOfMemory> {
        match limit.parse::<usize>() {
            Ok(limit) => self.desk.begin_term(self.alloc, limit)?,
            Err(_) => said.push_str("?")?,
        }
        self.seen = 0;
        Ok(())
    }

    /// Serves the link and writes how that ended. `shut_at` is the entry at which the gate is shut; without it the gate
    /// is open. If `may_be_same` holds and the link ended as the last time, it writes `same`.
    fn serve(
        &mut self,
        shut_at: &str,
        may_be_same: bool,
        said: &mut String,
    ) -> Result<(), OutOfMemory> {
        let mut gate = match shut_at.parse::<usize>() {
            Ok(shut_at) => Some(CountingGate::new(shut_at)),
            Err(_) => None,
        };
        let (peer, port, desk) = (&mut self.peer, &mut self.port, &mut self.desk);
        let ended = peer.serve(port, desk, gate.as_mut());
        let is_same = may_be_same && self.ended == Some(ended);
        self.ended = Some(ended);
        let word = if is_same {
            "same"
        } else {
            word_of_ended(ended)
        };
        self.write_course(word, said)?;
        match gate {
            Some(gate) => write!(said, "; {} {}", gate.enters, gate.leaves),
            None => Ok(()),
        }
    }

    /// Cuts the link.
    fn cut(&mut self, said: &mut String) -> Result<(), OutOfMemory> {
        let ended = match self.peer.cut(&mut self.desk) {
            Ok(()) => "done",
            Err(_) => "term over",
        };
        self.write_course(ended, said)
    }

    /// Writes how a call ended, the events that the desk took since the last call, and the octets that the port took.
    fn write_course(&mut self, ended: &str, said: &mut String) -> Result<(), OutOfMemory> {
        said.push_str(ended)?;
        said.push_str(";")?;
        write_from(said, self.desk.calls(), self.seen)?;
        self.seen = self.desk.calls().len();
        said.push_str(";")?;
        write_taken(said, self.peer.kind.answer(), self.port.taken())
    }

    /// Returns the numbers of reads and of writes that the port has answered.
    fn calls(&self) -> (usize, usize) {
        let (mut reads, mut writes) = (0usize, 0usize);
        for entry in self.port.entries().unwrap_or(&[]) {
            match entry {
                RecordEntry::Read(_) => reads = reads.saturating_add(1),
                RecordEntry::Write(_) => writes = writes.saturating_add(1),
                _ => {}
            }
        }
        (reads, writes)
    }
}
