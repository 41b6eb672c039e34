//! Tests of the texts and statuses of faults, and of a replay to a writer that takes nothing.

use crate::kept::expect_same;
use crate::site::SITE;
use dmr_command::ServeFault;
use dmr_desk::{CloseFault, OpenFault, TermFault};
use dmr_pdu::OutOfMemory;
use dmr_replay::replay;
use std::alloc::Global;
use std::io;
use std::io::Write;

/// Faults of serving, each with its text and its status.
static FAULTS: [(ServeFault, &str, u8); 8] = [
    (
        ServeFault::CannotListen(7101),
        "cannot listen on port 7101",
        1,
    ),
    (ServeFault::NoPoll, "no poll", 1),
    (
        ServeFault::Term(TermFault::Audit(CloseFault::Differs(3))),
        "audit differs at actor 3",
        3,
    ),
    (
        ServeFault::Term(TermFault::Audit(CloseFault::SeatMissing(17))),
        "seat missing for actor 17",
        3,
    ),
    (
        ServeFault::Term(TermFault::Early(0)),
        "early end at actor 0",
        3,
    ),
    (ServeFault::Term(TermFault::NoThread), "no thread", 4),
    (
        ServeFault::Term(TermFault::Open(OpenFault::OutOfMemory)),
        "out of memory",
        4,
    ),
    (ServeFault::OutOfMemory, "out of memory", 4),
];

/// A writer that takes nothing.
#[derive(Drop)]
struct Refusing;

impl Write for Refusing {
    fn write(&mut self, _octets: &[u8]) -> io::Result<usize> {
        Err(io::Error::from(io::ErrorKind::BrokenPipe))
    }

    fn flush(&mut self) -> io::Result<()> {
        Err(io::Error::from(io::ErrorKind::BrokenPipe))
    }
}

#[test]
fn texts_and_statuses(rt: HostRuntime) -> Result<(), OutOfMemory> {
    for (fault, text, status) in &FAULTS {
        let told = format!(in rt.alloc(); "{fault}")?;
        expect_same(&rt, "fault", *status, told.as_str(), *text);
        expect_same(&rt, text, "status", fault.status(), *status);
    }
    Ok(())
}

/// Replays a script at a site, and returns the status.
fn status_of<O: Write, E: Write>(
    alloc: Global,
    site: Option<&[u8]>,
    script: Option<&[u8]>,
    out: &mut O,
    err: &mut E,
) -> u8 {
    replay(alloc, "the.toml", site, "the.txt", script, out, err)
}

#[test]
fn output_that_is_not_taken(rt: HostRuntime) {
    let mut err = Vec::new(rt.alloc());
    let site = Some(SITE.as_bytes());
    let status = status_of(rt.alloc(), site, Some(b"open 0\n"), &mut Refusing, &mut err);
    expect_same(
        &rt,
        "output",
        "text",
        err.as_slice(),
        b"dmr_trunk: cannot write\n".as_slice(),
    );
    expect_same(&rt, "output", "status", status, 1);
    // A fault that cannot be written is ignored.
    let mut out = Vec::new(rt.alloc());
    let status = status_of(rt.alloc(), None, None, &mut out, &mut Refusing);
    expect_same(&rt, "fault", "status", status, 1);
}
