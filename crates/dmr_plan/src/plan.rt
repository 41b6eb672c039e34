//! The plan of a site file.

ghost use Rattle.std.specs.Prelude.{◌≡◌, ◌⊎◌, ◌↔◌, ◌≤◌, IsTrue, Err, None, IfSome, IsSome};
ghost use Rattle.std.specs.Prelude.{is_some};
ghost use Rattle.std.specs.List.{Any, Contains};
ghost use Rattle.toml.specs.Errors.{IsBlank};
ghost use Rattle.toml.specs.Parse.{parse_document};
ghost use Rattle.dmr_plan.specs.Plan.{plan_of_text, lists_radio, lists_group};
ghost use Rattle.dmr_plan.specs.Carriers.{row_with, has_number_in};
ghost use Rattle.dmr_plan.specs.IsPlan.{IsPlan};

use crate::carriers::CarrierRow;
use crate::fault::PlanFault;
use crate::settings::{Settings, settings_in};
use dmr_pdu::{Address, CarrierNo};
use std::alloc::Global;
use std::marker::Model;

/// The contents of an accepted site file. A `Plan` is `Copy` and has no memory of its own. In contracts it is the
/// settings, a section for each group of keys. Every plan satisfies `IsPlan`; [`Plan::use_invariant`] is the law for
/// it.
#[derive(Clone, Copy, Debug)]
pub struct Plan {
    // The module `sections` has the getters.
    pub(crate) settings: Settings,
}

impl Model for Plan {
    ghost use Rattle.dmr_plan.specs.declared.settings.Settings.{Settings};

    ghost Value = { Settings };

    ghost view = { λ plan. plan.settings };

    ghost use Rattle.dmr_plan.specs.IsPlan.{IsPlan};

    ghost invariant = { λ plan. IsPlan plan.settings };

    ghost inverse = { λ settings. record { settings = settings } };
}

/// Two plans are equal if they have the same value at each key.
impl PartialEq for Plan {
    ghost use Rattle.std.specs.Cmp.{partial_equiv_from_equiv};
    ghost use Rattle.dmr_plan.specs.Same.{are_same, are_same-equivalence};

    ghost eq = { are_same };

    ghost laws = { partial_equiv_from_equiv are_same-equivalence };

    fn eq(&self, other: &Self) -> bool
        ensures gives { result ≡ are_same self.now other.now }
        ensures same { IsTrue result ↔ (self.now ≡ other.now) }
    {
        self.settings == other.settings
    }
}

impl Eq for Plan {
    ghost use Rattle.dmr_plan.specs.Same.{are_same-equivalence};

    ghost laws = { are_same-equivalence };
}

impl Plan {
    /// Reads the text of a site file.
    ///
    /// `Ok` is the plan that the key table assigns to the text. `NotToml` means that the text is not TOML, or passes a
    /// limit of [`PlanFault::NotToml`]. Other errors are the first fault, in the order in which keys are checked
    /// ([`Key`](crate::Key)). Within a key the order is `Missing`, `WrongType`, `OutOfRange`, `Repeated`. `OutOfMemory`
    /// means that an allocation was refused while the text was parsed. The plan does not refer to the text.
    pub fn read(alloc: Global, text: &str) -> Result<Plan, PlanFault>
        // The result is the one plan of the text or its one fault, unless memory runs out.
        ensures exact { (result ≡ plan_of_text text.now) ⊎ (result ≡ Err PlanFault.OutOfMemory) }
        // A text that `parse_document` reads is never reported as `NotToml`.
        ensures not_toml { result ≡ Err PlanFault.NotToml → parse_document text.now ≡ None }
        // A blank text is never reported as `OutOfMemory`.
        ensures memory { result ≡ Err PlanFault.OutOfMemory → ¬ IsBlank text.now }
    {
        match toml::table_from_str(alloc, text) {
            Ok(table) => {
                let settings = settings_in(&table)?;
                Ok(Plan { settings })
            }
            Err(e) => {
                if e.is_memory() {
                    Err(PlanFault::OutOfMemory)
                } else {
                    Err(PlanFault::NotToml)
                }
            }
        }
    }

    /// Returns whether a radio may register: whether one of the ranges has it.
    pub fn lists_radio(&self, radio: Address) -> bool
        ensures gives { result ≡ lists_radio self.now radio }
        ensures member { IsTrue result
            ↔ Any (λ range. (range.first ≤ radio) × (radio ≤ range.last)) self.now.lists.radios }
    {
        self.radios().iter().any(|range| range.contains(radio))
    }

    /// Returns whether a talkgroup is one of the site's.
    pub fn lists_group(&self, group: Address) -> bool
        ensures gives { result ≡ lists_group self.now group }
        ensures member { IsTrue result ↔ Contains self.now.lists.groups group }
    {
        self.groups().contains(&group)
    }

    /// Returns the carrier with this number, or `None` if no carrier has it.
    pub fn carrier_with(&self, number: CarrierNo) -> Option<CarrierRow>
        ensures gives { result ≡ row_with self.now.lists.carriers number }
        ensures row { IfSome result (λ row. (row.number ≡ number)
            × Contains self.now.lists.carriers row) }
        ensures found { is_some result ≡ has_number_in self.now.lists.carriers number }
        // The control carrier is one of the carriers.
        ensures control { number ≡ self.now.lists.control → IsSome result }
    {
        self.settings.lists.carrier_with(number)
    }

    /// The contents, by section.
    pub fn settings(&self) -> &Settings
        ensures value { result.now ≡ self.now }
        ensures limits { IsPlan result.now }
    {
        &self.settings
    }

    /// Does nothing. A proof learns from it that the plan satisfies `IsPlan`.
    pub fn use_invariant(&self)
        ensures { IsPlan self.now }
    {
        let _ = &self.settings;
    }
}
