//! A site and a copy of it as a listener of stories.
//!
//! Inputs are the events of a site (`events`), which are answered with its acts (`acts`), and these:
//!
//! - `copy` replaces the copy by a copy of the site.
//! - `other` and changes of the site file replace the copy by a new site of that file, with no carrier up.
//! - `swap` exchanges the site and the copy.
//! - `same` asks whether the site and the copy are equal.
//! - `alone` and an event make a further copy, and apply the event to that copy only. The answer is `yes` if the
//!   further copy equals the site before the event and differs from it afterwards.
//! - `control` asks for the carrier of the control channel.

use super::acts::write_acts;
use super::events::event_of;
use crate::language::words::{cut, replace_with, write_truth};
use crate::language::{Listener, run_parts, run_round};
use crate::site_file::{plan_of, reading_of};
use dmr_core::{Event, Site};
use dmr_pdu::OutOfMemory;
use dmr_plan::Plan;
use std::alloc::Global;
use std::mem;
use std::process::Abort;
use std::test::Fail;

/// A story, and the site for it.
pub struct SiteStory {
    /// The name in a failure.
    pub name: &'static str,
    /// The changes of the common site file.
    pub site: &'static str,
    /// If it is a radio, the carriers are up when the story begins, the radios from 1001 to this one are registered,
    /// and their acknowledgements have been sent. If it is `None`, no carrier is up.
    pub radios: Option<u32>,
    /// The parts of the story, in order.
    pub input: &'static [&'static str],
}

/// A site and a copy of it.
#[derive(Drop)]
struct SiteStage {
    site: Site,
    copy: Site,
    alloc: Global,
}

/// The carrier whose number is the round's comes up.
const COMES_UP: &str = "up 0+ =>";

/// The radio whose number is the round's is registered, and its acknowledgement is sent.
const REGISTERS: &str = "\
heard 0.0 9F00020E.16776902.0+ => joined 0+; queue 0.0 A00000C4.0+.16776902
poll 0 => send 0.0 A00000C4.0+.16776902
";

/// Returns whether two sites are equal.
fn are_same(first: &Site, second: &Site) -> bool {
    *first == *second
}

/// Returns whether two sites differ.
fn are_apart(first: &Site, second: &Site) -> bool {
    *first != *second
}

/// Returns a site of this plan with no carrier up, and a copy of it.
fn stage_of(alloc: Global, plan: &Plan) -> Result<SiteStage, OutOfMemory> {
    let site = Site::new(alloc, *plan)?;
    match Site::new(alloc, *plan) {
        Ok(copy) => Ok(SiteStage { site, copy, alloc }),
        Err(refused) => {
            drop(site);
            Err(refused)
        }
    }
}

/// Runs each story and checks the answers of its site.
pub fn run_stories(rt: &(impl Abort + AllocGlobal), stories: &[SiteStory]) -> Result<(), Fail> {
    for story in stories {
        let plan = plan_of(rt.alloc(), story.site)?;
        run_story(rt, stage_of(rt.alloc(), &plan)?, &plan, story)?;
    }
    Ok(())
}

/// Runs a story with a site of this plan.
fn run_story<L: Listener + Drop>(
    rt: &(impl Abort + AllocGlobal),
    mut stage: L,
    plan: &Plan,
    story: &SiteStory,
) -> Result<(), OutOfMemory> {
    if let Some(last) = story.radios {
        begin(rt, &mut stage, plan, story.name, last)?;
    }
    run_parts(rt, stage, story.name, story.input)
}

/// The carriers come up, and the radios from 1001 to `last` are registered.
fn begin<L: Listener>(
    rt: &(impl Abort + AllocGlobal),
    stage: &mut L,
    plan: &Plan,
    name: &str,
    last: u32,
) -> Result<(), OutOfMemory> {
    for row in plan.carrier() {
        run_round(rt, stage, name, row.number.get(), COMES_UP)?;
    }
    for radio in 1001..=last {
        run_round(rt, stage, name, radio, REGISTERS)?;
    }
    Ok(())
}

impl Listener for SiteStage {
    fn answer_input(&mut self, input: &str, said: &mut String) -> Result<(), OutOfMemory> {
        let (word, rest) = cut(input);
        match word {
            "copy" => replace_with(&mut self.copy, self.site.try_clone(self.alloc)?),
            "swap" => mem::swap(&mut self.site, &mut self.copy),
            "same" => write_truth(said, are_same(&self.site, &self.copy))?,
            "alone" => self.stands_alone(rest, said)?,
            "other" => self.take_other(rest, said)?,
            "control" => write!(said, "{}", self.site.plan().control())?,
            _ => match event_of(input) {
                Some(event) => write_acts(said, &self.site.apply(event))?,
                None => said.push_str("?")?,
            },
        }
        Ok(())
    }
}

impl SiteStage {
    /// Replaces the copy by a new site of the site file with changes.
    fn take_other(&mut self, changes: &str, said: &mut String) -> Result<(), OutOfMemory> {
        match reading_of(self.alloc, changes) {
            Ok(plan) => replace_with(&mut self.copy, Site::new(self.alloc, plan)?),
            Err(_) => said.push_str("?")?,
        }
        Ok(())
    }

    /// Writes whether a further copy of the site equals it, and differs from it once the copy alone has processed this
    /// event.
    fn stands_alone(&self, input: &str, said: &mut String) -> Result<(), OutOfMemory> {
        let event: Option<Event> = event_of(input);
        let Some(event) = event else {
            return said.push_str("?");
        };
        let mut copy = self.site.try_clone(self.alloc)?;
        let equal = are_same(&copy, &self.site);
        copy.apply(event);
        let alone = equal && are_apart(&copy, &self.site);
        drop(copy);
        write_truth(said, alone)
    }
}
