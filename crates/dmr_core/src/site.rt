//! A site.

ghost use Rattle.std.specs.Prelude.{◌≡◌, ◌≤◌, ◌↔◌, [], ◌∷◌, length, filter, true, IfOk, IsTrue};
ghost use Rattle.std.specs.List.{All};
ghost use Rattle.dmr_plan.specs.Plan.{lists_radio};
ghost use Rattle.dmr_registry.specs.Limits.{most_radios};
ghost use Rattle.dmr_registry.specs.Radios.{AreDistinct};
ghost use Rattle.dmr_core.specs.Facts.{facts_after, no_facts};
ghost use Rattle.dmr_core.specs.Journal.{unattributed_entry};
ghost use Rattle.dmr_core.specs.Replies.{reply_to};
ghost use Rattle.dmr_core.specs.Restored.{facts_with, restored};
ghost use Rattle.dmr_core.specs.Rules.{acts_of};
ghost use Rattle.dmr_core.specs.Same.{are_same};
ghost use Rattle.dmr_core.specs.State.{IsSite};

use crate::act::Acts;
use crate::event::Event;
use crate::machine::Machine;
use crate::restored::registry_of;
use dmr_pdu::{Address, OutOfMemory};
use dmr_plan::Plan;
use std::alloc::Global;
use std::marker::Model;

/// A trunked site: its plan and its facts.
///
/// The facts are the carriers that are up, the registered radios, and the asks, lines and calls that are active. They
/// are also the PDUs that wait for each slot, the noise numbers, the Fills, the last late entry, and the move of the
/// control channel. They fit together at all times, as [`use_invariant`](Site::use_invariant) states.
#[derive(Drop)]
pub struct Site {
    machine: Machine,
}

impl Model for Site {
    ghost use Rattle.dmr_core.specs.State.{SiteState, IsSite};

    ghost Value = { SiteState };

    ghost view = { λ site. site.machine };

    ghost invariant = { λ site. IsSite site.machine };
}

impl Site {
    /// Makes a site of this plan on which nothing has happened.
    ///
    /// It allocates all the memory that the site ever needs. Returns `OutOfMemory` if the allocation fails.
    pub fn new(alloc: Global, plan: Plan) -> Result<Site, OutOfMemory>
        ensures { IfOk result (λ site. site ≡ record { plan = plan; facts = no_facts }) }
    {
        plan.use_invariant();
        Ok(Site {
            machine: Machine::new(alloc, &plan)?,
        })
    }

    /// Makes a site of this plan on which nothing has happened, but with radios registered already, as after a restart.
    ///
    /// Of `radios`, those that the plan lists are registered, in their order. A radio that comes twice is registered
    /// once, and after 4,096 radios no other is registered.
    ///
    /// It allocates all the memory that the site ever needs. Returns `OutOfMemory` if the allocation fails.
    pub fn with_registered(
        alloc: Global,
        plan: Plan,
        radios: &[Address],
    ) -> Result<Site, OutOfMemory>
        ensures facts { IfOk result (λ site. site
            ≡ record { plan = plan; facts = facts_with (restored plan radios.now) }) }
        // Each radio that is registered is one that the plan lists.
        ensures listed { IfOk result (λ site.
            All (λ radio. lists_radio plan radio ≡ true) site.facts.registered) }
        // Distinct radios for which there is room keep their order, and none that the plan lists is left out.
        ensures order { AreDistinct radios.now → length radios.now ≤ most_radios
            → IfOk result (λ site. site.facts.registered ≡ filter (lists_radio plan) radios.now) }
    {
        plan.use_invariant();
        let registry = registry_of(alloc, &plan, radios)?;
        let _registered = registry.as_slice();
        Ok(Site {
            machine: Machine::with_registry(alloc, &plan, registry)?,
        })
    }

    /// The site's plan.
    pub fn plan(&self) -> &Plan
        ensures { result.now ≡ self.now.plan }
    {
        self.machine.plan()
    }

    /// The registered radios, in the order in which they joined: at most 4,096, none of them twice.
    pub fn registered(&self) -> &[Address]
        ensures { result.now ≡ self.now.facts.registered }
    {
        self.machine.registered()
    }

    /// Answers an event with acts and, if it is a command, with a reply.
    ///
    /// The acts and the reply are those of the rules for the event and the facts before it. The facts afterwards are
    /// those that the event and the acts leave. No event is refused, and no memory is allocated.
    pub fn apply(&mut self, event: Event) -> Acts
        ensures acts { result.list ≡ acts_of self.old.plan self.old.facts event }
        ensures said { result.said ≡ reply_to self.old.plan self.old.facts event }
        ensures facts { self.new ≡ record {
          plan = self.old.plan;
          facts = facts_after self.old.plan self.old.facts (unattributed_entry event result ∷ []);
        } }
    {
        let mut acts = Acts::none();
        self.apply_to(&event, &mut acts);
        acts
    }

    /// Answers an event as [`apply`](Site::apply) does. `acts` becomes the answer, whatever it was before.
    ///
    /// An answer has room for sixteen acts and a reply, most of which an event leaves unused. A caller that keeps
    /// `acts` from event to event does not pay for that room at each event.
    pub fn apply_to(&mut self, event: &Event, acts: &mut Acts)
        ensures acts { acts.new.list ≡ acts_of self.old.plan self.old.facts event.now }
        ensures said { acts.new.said ≡ reply_to self.old.plan self.old.facts event.now }
        ensures facts { self.new ≡ record {
          plan = self.old.plan;
          facts =
              facts_after self.old.plan self.old.facts (unattributed_entry event.now acts.new ∷ []);
        } }
    {
        self.machine.apply_to(event, acts);
    }

    /// Makes an independent site with the same plan and facts.
    ///
    /// Returns `OutOfMemory` if the allocation fails. This site is unchanged in either case.
    pub fn try_clone(&self, alloc: Global) -> Result<Site, OutOfMemory>
        ensures { IfOk result (λ copy. copy ≡ self.now) }
    {
        Ok(Site {
            machine: self.machine.try_clone(alloc)?,
        })
    }

    /// Does nothing. A proof calls it to use the invariant of every site.
    pub fn use_invariant(&self)
        ensures { IsSite self.now }
    {
        let _ = &self.machine;
    }
}

/// Two sites are equal if they have the same plan and the same facts.
impl PartialEq for Site {
    ghost use Rattle.std.specs.Cmp.{partial_equiv_from_equiv};
    ghost use Rattle.dmr_core.specs.Same.{are_same, are_same-equivalence};

    ghost eq = { are_same };

    ghost laws = { partial_equiv_from_equiv are_same-equivalence };

    fn eq(&self, other: &Self) -> bool
        ensures gives { result ≡ are_same self.now other.now }
        ensures same { IsTrue result ↔ (self.now ≡ other.now) }
    {
        self.machine.equals(&other.machine)
    }
}

impl Eq for Site {
    ghost use Rattle.dmr_core.specs.Same.{are_same-equivalence};

    ghost laws = { are_same-equivalence };
}
