//! The settings: the contents of a site file.

ghost use Rattle.std.specs.Prelude.{◌≡◌, IfOk, IfErr};
ghost use Rattle.toml.specs.View.{table_view};
ghost use Rattle.dmr_plan.specs.Steps.{IsOfKey};
ghost use Rattle.dmr_plan.specs.Plan.{plan_of};
ghost use Rattle.dmr_plan.specs.IsPlan.{IsPlan};

use crate::fault::PlanFault;
use crate::sections::{
    AlohaSection, CallSection, ListSection, ServingSection, SystemSection, aloha_in, calls_in,
    lists_in, serving_in, system_in,
};
use toml::Table;

/// The contents of a site file, by section, in the order in which keys are checked. Contracts see a plan as its
/// settings.
#[derive(Clone, Copy, Debug, PartialEq, Eq)]
pub struct Settings {
    /// The system, its services, and how a radio leaves.
    pub system: SystemSection,
    /// The fields of C_ALOHA that the plan fixes.
    pub aloha: AlohaSection,
    /// The times and counts of calls and of random access.
    pub calls: CallSection,
    /// How the site is served.
    pub serving: ServingSection,
    /// The console's port, and the lists of radios, talkgroups and carriers.
    pub lists: ListSection,
}

/// Reads the settings from a table, or its first fault. The keys are checked in the order that
/// [`Key`](crate::Key) says.
#[tactic(auto, unfolding(crate::specs::Plan::plan_of))]
pub fn settings_in(table: &Table) -> Result<Settings, PlanFault>
    ensures gives { result ≡ plan_of (table_view table.now) }
    ensures limits { IfOk result IsPlan }
    ensures of_key { IfErr result IsOfKey }
{
    Ok(Settings {
        system: system_in(table)?,
        aloha: aloha_in(table)?,
        calls: calls_in(table)?,
        serving: serving_in(table)?,
        lists: lists_in(table)?,
    })
}
