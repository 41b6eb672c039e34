//! Makes each public call of the controller's libraries that takes memory once, and prints its verdict: `done`,
//! `refused`, or `not tried` if there was no memory for its preparation. Also fills what has a limit.
//!
//! `trials/refuse-memory` runs the program again and again, and refuses another allocation each time. A refused call
//! has to return its error for that, and to keep its promise: the values that it was given or called on work as before.
//! If it does not, the program prints `wrong` and its exit status is 1.

mod calls;
mod desks;
mod limits;
mod runs;
mod verdict;

use crate::refusals::verdict::Verdict;
use std::io;

/// Makes the calls, and prints their verdicts. Returns whether none of them is wrong.
pub fn make_calls<R: Print + AllocGlobal>(rt: &R) -> io::Result<bool> {
    let alloc = rt.alloc();
    let verdicts = [
        ("Plan::read", calls::read_plan(alloc)),
        ("Site::new", calls::new_site(alloc)),
        ("Registry::try_clone", calls::clone_registry(alloc)),
        ("Access::try_clone", calls::clone_access(alloc)),
        ("Pool::try_clone", calls::clone_pool(alloc)),
        ("Calls::try_clone", calls::clone_calls(alloc)),
        ("Site::try_clone", calls::clone_site(alloc)),
        ("Engine::new", runs::new_engine(alloc)),
        ("Engine::run", runs::run_engine(alloc)),
        ("MemoryPort::new", calls::new_port(alloc)),
        ("Book::new", desks::new_book(alloc)),
        ("SharedDesk::open", desks::open_desk(alloc)),
    ];
    print_verdicts(rt, &verdicts)
}

/// Fills what has a limit, and prints the verdicts. Returns whether none of them is wrong.
pub fn fill_all<R: Print + AllocGlobal>(rt: &R) -> io::Result<bool> {
    let alloc = rt.alloc();
    let verdicts = [
        ("a full Registry", limits::fill_registry(alloc)),
        ("a full outbox of Pool", limits::fill_outbox(alloc)),
        ("full lists of Calls", limits::fill_lists(alloc)),
        ("a full BoundedList", limits::fill_list()),
        ("Access::fill", limits::fill_control_slot(alloc)),
    ];
    print_verdicts(rt, &verdicts)
}

/// Prints verdicts by the names of their calls. Returns whether none of them is wrong.
fn print_verdicts<R: Print>(rt: &R, verdicts: &[(&str, Verdict)]) -> io::Result<bool> {
    let mut right = true;
    for (call, verdict) in verdicts {
        let words = verdict.words();
        println!(rt; "{call}: {words}")?;
        if *verdict == Verdict::Wrong {
            right = false;
        }
    }
    Ok(right)
}
