//! The source of the program's files.

ghost use Rattle.std.specs.Prelude.{◌≡◌, ◌≤◌, List, Option, IfOk, IfSome, option_map, ℕ, ⊤, vec_len};

use std::fs::{File, OpenFile};
use std::io;
use std::io::Read;
use std::rt::Files;

/// The most octets of a site file: 1 MiB.
pub const SITE_OCTETS: u64 = 1 << 20;

/// Why the octets of a file are not read.
#[derive(Clone, Copy, Debug, PartialEq, Eq)]
pub enum ReadFault {
    /// The file has more octets than it may have.
    Long,
    /// Memory ran out. This says nothing about the file.
    OutOfMemory,
}

/// A source of files by their paths. `gave` is a member of its own. So a function over any source is proved to have
/// used the octets that this source gave for this path, and nothing else.
pub trait FileSource {
    /// The source may have this for this path: the octets of the file, or none if the file cannot be read.
    ghost gave: { Self → List ℕ → Option (List ℕ) → Type 0 };

    /// Reads the octets of the file of a path, at most this many; `None` if the file cannot be read. If the file has
    /// more, no more than that and one are read.
    fn octets_of(&self, path: &str, most: u64) -> Result<Option<Vec<u8>>, ReadFault>
        ensures gave { IfOk result
            (λ octets. gave self.now path.now (option_map (λ o. o.items) octets)) }
        ensures bound { IfOk result (λ octets. IfSome octets (λ o. vec_len o ≤ most)) };
}

/// The octets of a file that could be read.
pub fn slice_of(octets: &Option<Vec<u8>>) -> Option<&[u8]>
    ensures { option_map (λ o. o.now) result ≡ option_map (λ o. o.items) octets.now }
{
    match octets {
        Some(octets) => Some(octets.as_slice()),
        None => None,
    }
}

/// The files of the system. No contract can describe their contents, so this source may give anything.
#[derive(Drop)]
pub struct SystemFiles<'a, R> {
    rt: &'a R,
}

impl<'a, R> SystemFiles<'a, R> {
    /// The files that the program's host lets it read.
    pub fn new(rt: &'a R) -> SystemFiles<'a, R> {
        SystemFiles { rt }
    }
}

/// Reads a file of at most this many octets; `None` if it has more. It may have more than the system says, or no end.
fn read_file<R: AllocGlobal + Files>(rt: &R, path: &str, most: u64) -> io::Result<Option<Vec<u8>>>
    ensures bound { IfOk result (λ octets. IfSome octets (λ o. vec_len o ≤ most)) }
{
    let file = File::open(rt, path)?;
    if file.metadata()?.len() > most {
        return Ok(None);
    }
    let mut octets = Vec::new(rt.alloc());
    file.take(most.saturating_add(1)).read_to_end(&mut octets)?;
    if octets.len() as u64 > most {
        return Ok(None);
    }
    Ok(Some(octets))
}

impl<R: AllocGlobal + Files> FileSource for SystemFiles<'_, R> {
    ghost gave = { λ _ _ _. ⊤ };

    fn octets_of(&self, path: &str, most: u64) -> Result<Option<Vec<u8>>, ReadFault> {
        match read_file(self.rt, path, most) {
            Ok(Some(octets)) => Ok(Some(octets)),
            Ok(None) => Err(ReadFault::Long),
            Err(error) => {
                if error.kind() == io::ErrorKind::OutOfMemory {
                    Err(ReadFault::OutOfMemory)
                } else {
                    Ok(None)
                }
            }
        }
    }
}
