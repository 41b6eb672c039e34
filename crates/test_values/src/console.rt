//! Lines and replies that no case has: the cases have every command, each line that is none, and every reply of a site.

use crate::lines::{expect_same, expect_true};
use arrayvec::ArrayVec;
use dmr_console::{
    LineCutter, LineStep, line_too_long, lines_in_any_cutting, lines_precede_their_ends, parse,
    print, unknown_command,
};
use dmr_core::{Command, Reply};
use dmr_pdu::Lpcn;
use std::process::Abort;

#[test]
fn a_command(rt: HostRuntime) {
    expect_same(&rt, "a command", parse(b"  stay "), Some(Command::Stay));
    expect_same(&rt, "none", parse(b"stay 0"), None);
}

/// Feeds octets that end no line.
fn feed_open(rt: &impl Abort, cutter: &mut LineCutter, octets: &[u8]) {
    for octet in octets {
        assert_eq!(rt; cutter.feed_byte(*octet), LineStep::Need);
    }
}

#[test]
fn lines(rt: HostRuntime) {
    let mut cutter = LineCutter::default();
    feed_open(&rt, &mut cutter, &[b'a'; 81]);
    assert_eq!(&rt; cutter.feed_byte(b'\n'), LineStep::TooLong);
    feed_open(&rt, &mut cutter, b"stay\r");
    let mut line = ArrayVec::new();
    let fits = line.try_extend_from_slice(b"stay").is_ok();
    expect_true(&rt, "room", fits);
    assert_eq!(&rt; cutter.feed_byte(b'\n'), LineStep::Line(line));
}

/// The greatest numbers, which no site reaches.
#[test]
fn the_longest_status(rt: HostRuntime) {
    let greatest = Reply::Status {
        carriers: usize::MAX,
        radios: usize::MAX,
        asks: usize::MAX,
        lines: usize::MAX,
        calls: usize::MAX,
        moving: Some(Lpcn::new(4094)),
    };
    assert_eq!(&rt;
        print(&greatest).as_str(),
        "status carriers 18446744073709551615 radios 18446744073709551615 asks 18446744073709551615 lines 18446744073709551615 calls 18446744073709551615 fill move 4094\n"
    );
}

#[test]
fn replies_to_lines_that_are_not_commands(rt: HostRuntime) {
    expect_same(&rt, "unknown", unknown_command(), "error unknown command\n");
    expect_same(&rt, "too long", line_too_long(), "error line too long\n");
}

#[test]
fn laws_do_nothing(rt: HostRuntime) {
    lines_precede_their_ends();
    lines_in_any_cutting();
    dmr_frames::laws::limits_are_stated();
    dmr_calls::limits_are_stated();
    dmr_core::limits_are_stated();
    dmr_console::limits_are_stated();
    expect_true(&rt, "no command", parse(b"").is_none());
}
