//! The registered radios by the entries of a journal.

ghost use Rattle.std.specs.Prelude.{◌≡◌, fold, OnOk};
ghost use Rattle.dmr_registry.specs.Radios.{without};
ghost use Rattle.dmr_core.specs.Facts.{registered_by_act};
ghost use Rattle.dmr_keeper.specs.Registered.{registered_after};

use dmr_core::{Act, Entry};
use dmr_pdu::{Address, OutOfMemory};

/// Removes a radio.
fn remove_radio(radio: &Address, radios: &mut Vec<Address>)
    ensures { radios.new.items ≡ without radios.old.items radio.now }
{
    radios.retain(|other| *other != *radio);
}

/// Applies an act to the registered radios.
fn apply_act(act: &Act, radios: &mut Vec<Address>) -> Result<(), OutOfMemory>
    ensures { OnOk result (radios.new.items ≡ registered_by_act radios.old.items act.now) }
{
    match act {
        Act::Joined(radio) => radios.push(*radio)?,
        Act::Left(radio) => remove_radio(radio, radios),
        Act::Queue(_, _)
        | Act::Send(_, _)
        | Act::Fill(_, _)
        | Act::Asked(_)
        | Act::AskOver(_)
        | Act::Lined(_)
        | Act::Unlined(_)
        | Act::Began(_)
        | Act::Ended(_) => {}
    }
    Ok(())
}

/// Applies acts to the registered radios, in their order.
fn apply_acts(acts: &[Act], radios: &mut Vec<Address>) -> Result<(), OutOfMemory>
    ensures { OnOk result (radios.new.items ≡ fold registered_by_act radios.old.items acts.now) }
{
    for act in acts {
        apply_act(act, radios)?;
    }
    Ok(())
}

/// Applies the entries of a journal to the registered radios. On an error memory ran out, and the list has the effect
/// of some first acts.
pub fn apply_to_registered(journal: &[Entry], radios: &mut Vec<Address>) -> Result<(), OutOfMemory>
    ensures { OnOk result (radios.new.items ≡ registered_after radios.old.items journal.now) }
{
    for entry in journal {
        apply_acts(entry.acts.list.as_slice(), radios)?;
    }
    Ok(())
}
