//! What one term hands on to the next.

ghost use Rattle.std.specs.Prelude.{◌≡◌, IfOk};
ghost use Rattle.dmr_keeper.specs.Carried.{nothing_carried, starting_with};

use crate::calls::OpenCall;
use crate::lines::OpenLine;
use dmr_pdu::{Address, OutOfMemory};
use std::alloc::Global;
use std::marker::Model;

/// The state of records between two terms: the ticks of all terms so far, the calls that are open, the lines that wait,
/// and the registered radios. Contracts see a record of lists.
///
/// Of a site that starts with nothing, the first term begins with [`Carried::new`]. Of a site that starts with radios
/// registered, it begins with [`Carried::with_registered`]. Each later term begins with
/// [`Records::after`](crate::Records::after) of the term before. At most 31 calls are open then, 32 lines wait, and
/// 4,096 radios are registered, since these are the site's own ([`carried_is_the_sites`](crate::carried_is_the_sites)).
#[derive(Drop)]
pub struct Carried {
    pub(crate) ticks: u64,
    pub(crate) calls: Vec<OpenCall>,
    pub(crate) lines: Vec<OpenLine>,
    pub(crate) registered: Vec<Address>,
}

impl Model for Carried {
    ghost use Rattle.dmr_keeper.specs.Carried.{Carry};

    ghost Value = { Carry };

    ghost view = { λ c. record {
      ticks = c.ticks;
      calls = c.calls.items;
      lines = c.lines.items;
      registered = c.registered.items;
    } };
}

impl Carried {
    /// The state before the first term of a site on which nothing has happened. It allocates nothing.
    pub fn new(alloc: Global) -> Carried
        ensures { result ≡ nothing_carried }
    {
        Carried {
            ticks: 0,
            calls: Vec::new(alloc),
            lines: Vec::new(alloc),
            registered: Vec::new(alloc),
        }
    }

    /// The state before the first term of a site that starts with these radios registered, as after a restart.
    ///
    /// `radios` are in the order in which they joined, as the site has them. Returns `OutOfMemory` if the allocation is
    /// refused.
    pub fn with_registered(alloc: Global, radios: &[Address]) -> Result<Carried, OutOfMemory>
        ensures { IfOk result (λ start. start ≡ starting_with radios.now) }
    {
        let registered = Vec::from_slice(alloc, radios)?;
        Ok(Carried {
            ticks: 0,
            calls: Vec::new(alloc),
            lines: Vec::new(alloc),
            registered,
        })
    }

    /// Makes a copy with memory of its own. Returns `OutOfMemory` if an allocation is refused.
    pub fn try_clone(&self, alloc: Global) -> Result<Carried, OutOfMemory>
        ensures { IfOk result (λ copy. copy ≡ self.now) }
    {
        let calls = Vec::from_slice(alloc, self.calls.as_slice())?;
        let lines = Vec::from_slice(alloc, self.lines.as_slice())?;
        let registered = Vec::from_slice(alloc, self.registered.as_slice())?;
        Ok(Carried {
            ticks: self.ticks,
            calls,
            lines,
            registered,
        })
    }

    /// The ticks of all terms so far.
    pub fn ticks(&self) -> u64
        ensures { result ≡ self.now.ticks }
    {
        self.ticks
    }

    /// The calls that are open, in the order in which they began.
    pub fn calls(&self) -> &[OpenCall]
        ensures { result.now ≡ self.now.calls }
    {
        self.calls.as_slice()
    }

    /// The lines that wait, in the order in which they were added.
    pub fn lines(&self) -> &[OpenLine]
        ensures { result.now ≡ self.now.lines }
    {
        self.lines.as_slice()
    }

    /// The registered radios, in the order in which they joined.
    pub fn registered(&self) -> &[Address]
        ensures { result.now ≡ self.now.registered }
    {
        self.registered.as_slice()
    }
}
