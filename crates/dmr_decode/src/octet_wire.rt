//! A wire from which a link reads one octet after another, and which takes what the link writes.

ghost use Rattle.std.specs.Prelude.{None};

use dmr_wire::{Got, Put, Wire};
use std::alloc::Global;

/// A wire with at most one octet to read. A read without one would block, so a link stops after each octet.
#[derive(Drop)]
pub struct OctetWire {
    next: Option<u8>,
    keeps: bool,
    written: Vec<u8>,
}

impl OctetWire {
    /// Makes a wire without octets. `keeps`: it keeps what is written.
    pub fn new(alloc: Global, keeps: bool) -> OctetWire {
        OctetWire {
            next: None,
            keeps,
            written: Vec::new(alloc),
        }
    }

    /// Sets the next octet to read.
    pub fn offer(&mut self, octet: u8) {
        self.next = Some(octet);
    }

    /// Returns the octets that were written and are kept, oldest first.
    pub fn written(&self) -> &[u8] {
        self.written.as_slice()
    }
}

impl Wire for OctetWire {
    ghost reported = { λ w. None };

    fn read(&mut self, octets: &mut [u8]) -> Got {
        match self.next {
            Some(octet) => {
                self.next = None;
                octets[0] = octet;
                Got::Octets(1)
            }
            None => Got::Block,
        }
    }

    /// Takes the octets. If they are to be kept and memory is out, the write fails.
    fn write(&mut self, octets: &[u8]) -> Put {
        if self.keeps && self.written.extend_from_slice(octets).is_err() {
            return Put::Fault;
        }
        Put::Octets(octets.len())
    }
}
