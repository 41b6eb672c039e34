//! The registrations with which a site starts.

ghost use Rattle.std.specs.Prelude.{◌≡◌, IfOk};
ghost use Rattle.dmr_core.specs.Restored.{restored};

use dmr_pdu::{Address, OutOfMemory};
use dmr_plan::Plan;
use dmr_registry::Registry;
use std::alloc::Global;

/// Returns the registry of these radios: each that the plan lists joins in turn. Returns `OutOfMemory` if the
/// allocation fails.
pub fn registry_of(alloc: Global, plan: &Plan, radios: &[Address]) -> Result<Registry, OutOfMemory>
    ensures { IfOk result (λ registry. registry ≡ restored plan.now radios.now) }
{
    let mut registry = Registry::new(alloc)?;
    for radio in radios {
        if plan.lists_radio(*radio) {
            // A radio for which no place is left is not registered.
            let _ = registry.join(*radio);
        }
    }
    Ok(registry)
}
