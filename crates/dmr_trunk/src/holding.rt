//! The store with the records that it is to keep next: here, or with the thread that writes.

use dmr_keeper::{KeepFault, Keeper, RecordQueue};
use std::snapshot::Snapshot;
use std::thread::{Promise, PromisedHandle};

/// A store, and the records that it is to keep next.
#[derive(Drop)]
pub struct Keeping<K> {
    /// The store.
    pub keeper: K,
    /// The records, oldest term first.
    pub queue: RecordQueue,
    /// Why the store refused records the last time. `None` if it refused none.
    pub fault: Option<KeepFault>,
}

/// The promise that a thread hands the store what waits.
#[derive(Drop)]
pub struct HandOver<K>(pub Snapshot<Keeping<K>>);

impl<K: Keeper> Promise<Keeping<K>> for HandOver<K> {
    ghost use Rattle.std.specs.Prelude.{◌≡◌, [], None, IfSome};
    ghost use Rattle.dmr_keeper.specs.Handing.{AreHandedOver, IsRefused};

    ghost kept_by = { λ p r. AreHandedOver (K.kept p.0.value.keeper) p.0.value.queue r.queue
        (K.kept r.keeper) × (r.fault ≡ None → r.queue ≡ [])
        × IfSome r.fault (IsRefused K.kept K.refuses p.0.value.keeper p.0.value.queue r.queue) };
}

/// The store: it is here, or a thread writes to it.
#[derive(Drop)]
pub enum Writer<K: Keeper> {
    /// The store is here.
    Idle(Keeping<K>),
    /// A thread has it, and returns it.
    Busy(PromisedHandle<Keeping<K>, HandOver<K>>),
}
