//! Lines of text, each with an input and the expected answer, and comparisons with expected values.
//!
//! A comparison is one call, since an assertion in a test is expensive to prove.

use dmr_pdu::OutOfMemory;
use std::fmt::{Debug, Display};
use std::process::Abort;

/// The thing under test: takes the inputs of lines, one at a time, and writes its answers.
pub trait Listener {
    /// Applies `input` and writes the answer to `said`; writes `?` if the input is unknown.
    fn answer_input(&mut self, input: &str, said: &mut String) -> Result<(), OutOfMemory>;
}

/// Checks the answer to each line. `name` names the lines in a failure. Drops the listener at the end.
pub fn check_lines<L: Listener + Drop>(
    rt: &(impl Abort + AllocGlobal),
    mut listener: L,
    name: &str,
    lines: &str,
) -> Result<(), OutOfMemory> {
    for line in lines.lines() {
        check_line(rt, &mut listener, name, line)?;
    }
    Ok(())
}

/// Checks the answer to a line.
fn check_line<L: Listener>(
    rt: &(impl Abort + AllocGlobal),
    listener: &mut L,
    name: &str,
    line: &str,
) -> Result<(), OutOfMemory> {
    let (input, wanted) = line.split_once(" =>").unwrap_or((line, "no answer"));
    let wanted = wanted.strip_prefix(' ').unwrap_or(wanted);
    let mut said = String::new(rt.alloc());
    listener.answer_input(input, &mut said)?;
    expect_same(rt, name, (line, said.as_str()), (line, wanted));
    Ok(())
}

/// Splits words into the first word and the words after it.
pub fn cut(words: &str) -> (&str, &str) {
    words.split_once(' ').unwrap_or((words, ""))
}

/// Checks that a value is the expected one. `case` names it in a failure.
pub fn expect_same<V: Copy + PartialEq + Debug, C: Copy + Display>(
    rt: &impl Abort,
    case: C,
    value: V,
    wanted: V,
) {
    assert_eq!(rt; value, wanted, "{case}");
}

/// Checks that something holds. `case` names it in a failure.
pub fn expect_true<C: Copy + Display>(rt: &impl Abort, case: C, holds: bool) {
    assert!(rt; holds, "{case}");
}
