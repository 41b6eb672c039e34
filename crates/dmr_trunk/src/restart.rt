//! The start of a site that was served before: the radios that were registered.

ghost use Rattle.std.specs.Prelude.{IfErr, IfOk};
ghost use Rattle.dmr_trunk.specs.Restart.{AreFound, AreNotFound, AreRestored};

use crate::notes::Notes;
use crate::store::Store;
use dmr_keeper::KeepFault;
use dmr_pdu::Address;
use dmr_registry::MOST_RADIOS;
use log::Log;
use std::alloc::Global;
use std::thread;
use std::time::{Clock, Duration};

/// How often the store is asked while another program has its file open.
const TRIES: u32 = 50;

/// How many milliseconds pass between two tries.
const PAUSE: u64 = 100;

/// Reads the radios that were registered. While another program has the file open, the store is asked again, for about
/// 5 seconds.
fn registered_in<K: Store, R: Clock>(
    rt: &R,
    alloc: Global,
    store: &mut K,
) -> Result<Vec<Address>, KeepFault>
    ensures found { IfOk result
        (λ radios. AreFound K.reads K.cannot_read store.old radios.items store.new) }
    ensures not_found { IfErr result
        (λ fault. AreNotFound K.cannot_read store.old fault store.new) }
{
    for _ in 1..TRIES {
        match store.registered(alloc) {
            Err(KeepFault::InUse) => thread::sleep(rt, Duration::from_millis(PAUSE)),
            found => return found,
        }
    }
    store.registered(alloc)
}

/// Notes how many radios are registered again. The store reads one more than a site may have if it has too many.
fn note_restored<R: Log>(notes: &mut Notes<'_, R>, radios: usize) {
    if radios > MOST_RADIOS {
        notes.too_many_radios();
    } else {
        notes.restored(radios);
    }
}

/// Returns the radios that were registered at the end of the last term that the store has. Notes how many there are, or
/// why they are not known; then there are none.
pub fn read_registered<K: Store, R: Log + Clock>(
    rt: &R,
    alloc: Global,
    store: &mut K,
    notes: &mut Notes<'_, R>,
) -> Vec<Address>
    ensures { AreRestored K.reads K.cannot_read store.old result.items store.new }
{
    match registered_in(rt, alloc, store) {
        Ok(radios) => {
            note_restored(notes, radios.len());
            radios
        }
        Err(fault) => {
            notes.cannot_restore(fault);
            Vec::new(alloc)
        }
    }
}
