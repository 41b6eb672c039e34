//! The common site file of the tests, and files that differ from it in a few places.
//!
//! A difference is written as the text in the file, ` / `, and the text that replaces it: `hang = 100 / hang = 0`. ` &
//! ` separates several differences. In them, `|` is the end of a line, `SITE` is the whole file, and `CARRIERS` is the
//! tables of all its carriers.

use dmr_pdu::OutOfMemory;
use dmr_plan::{Plan, PlanFault};
use std::alloc::Global;
use std::test::Fail;

/// The site file: carriers 0 and 1 with channels 1 and 2, and four talkgroups.
const SITE: &str = "\
system = 0x1234
regi = 0xFFFEC6
tsi = 0xFFFECA
leave_bit = 0
hang = 100
maximum = 3000
ahoy_wait = 8
ahoy_tries = 3
grant_copies = 1
clear_copies = 1
backoff_low = 1
backoff_high = 8
tick_ms = 60
silence = 100
console_port = 7100
radios = [[1000, 1999]]
groups = [91, 92, 93, 94]
control = 0
[[carrier]]
number = 0
lpcn = 1
port = 7101
[[carrier]]
number = 1
lpcn = 2
port = 7102
";

/// The part of the site file with its carriers.
const CARRIERS: &str = "\
[[carrier]]
number = 0
lpcn = 1
port = 7101
[[carrier]]
number = 1
lpcn = 2
port = 7102
";

/// No difference: two carriers, four talkgroups, and one copy of each grant and P_CLEAR.
pub const SMALL: &str = "";

/// The common site, but each grant and each P_CLEAR is sent four times.
pub const LOUD: &str = "grant_copies = 1 / grant_copies = 4 & clear_copies = 1 / clear_copies = 4";

/// Returns the text of the site file with changes.
fn text_of(alloc: Global, changes: &str) -> Result<String, OutOfMemory> {
    let mut text = String::from_str(alloc, SITE)?;
    if !changes.is_empty() {
        for change in changes.split(" & ") {
            let (from, to) = change.split_once('/').unwrap_or((change, change));
            let from = lines_of(alloc, from.trim())?;
            let to = lines_of(alloc, to.trim())?;
            text = text.as_str().replace(alloc, from.as_str(), to.as_str())?;
        }
    }
    Ok(text)
}

/// Returns the lines that the words of a change mean.
fn lines_of(alloc: Global, words: &str) -> Result<String, OutOfMemory> {
    match words {
        "SITE" => String::from_str(alloc, SITE),
        "CARRIERS" => String::from_str(alloc, CARRIERS),
        _ => words.replace(alloc, "|", "\n"),
    }
}

/// Reads the site file with changes and returns its plan, or the file's fault.
pub fn reading_of(alloc: Global, changes: &str) -> Result<Plan, PlanFault> {
    match text_of(alloc, changes) {
        Ok(text) => Plan::read(alloc, text.as_str()),
        Err(_) => Err(PlanFault::OutOfMemory),
    }
}

/// Returns the plan of the site file with changes.
pub fn plan_of(alloc: Global, changes: &str) -> Result<Plan, Fail> {
    match reading_of(alloc, changes) {
        Ok(plan) => Ok(plan),
        Err(_) => Err("a plan".into()),
    }
}
