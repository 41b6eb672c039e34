//! Stories of links whose calls stop and go on later, over ports that fail. `cases/links` has what one term shows.

mod answers;
mod desk;
pub mod frames;
mod gate;
mod numbered;
mod operators;
mod peer;
mod stage;
mod steps;
mod terms;

use self::peer::LinkKind;
use self::stage::run_stories;
use std::test::Fail;

/// The name of a story, and its text.
pub type LinkStory = (&'static str, &'static str);

#[test]
fn links_of_carriers(rt: HostRuntime) -> Result<(), Fail> {
    dmr_link::laws::limits_are_stated();
    let kind = LinkKind::Carrier;
    run_stories(&rt, kind, &terms::PAUSES, "")?;
    run_stories(&rt, kind, &terms::STOPS, "")?;
    run_stories(&rt, kind, &terms::CUTS, "")?;
    run_stories(&rt, kind, &terms::ENDINGS, terms::AGAIN)?;
    run_stories(&rt, kind, &terms::FAILS, "")?;
    run_stories(&rt, LinkKind::Numbered, &numbered::NUMBERS, "")
}

#[test]
fn links_of_operators(rt: HostRuntime) -> Result<(), Fail> {
    let kind = LinkKind::Operator;
    run_stories(&rt, kind, &operators::STOPS, "")?;
    run_stories(&rt, kind, &operators::ENDINGS, operators::AGAIN)
}
