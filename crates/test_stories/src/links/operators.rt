//! Stories of the operators' link that stops and goes on later, and of one that is used again. The input is the lines
//! `status` and `stay`, 12 octets in all. The whole answer has 64 octets, and the reply to `status` has 61 of them.

use super::LinkStory;

/// Many reads, terms that end, and cuts.
pub static STOPS: [LinkStory; 4] = [
    (
        "the 65th read is made by the next call",
        "\
begin 12 single stay; single 115 116 97 121; octets 10 =>
serve => paused; stay stay stay stay stay stay stay stay stay stay stay stay; ok|ok|ok|ok|ok|ok|ok|ok|ok|ok|ok|ok|
reads => 64
serve => closed; stay; ok|ok|ok|ok|ok|ok|ok|ok|ok|ok|ok|ok|ok|
",
    ),
    (
        "terms of one command",
        "\
begin first 12 =>
term 0 =>
serve => term over; -; 0
serve => term over; -; 0
live => yes
open => no
term 1 =>
serve => term over; status; 61
term 1 =>
serve => closed; stay; 64
live => no
reads => 2
",
    ),
    (
        "cuts",
        "\
begin first 12 =>
term 1 =>
serve => term over; status; 61
cut => term over; -; 61
live => yes
open => no
term 1 =>
cut => done; stay; 61
serve => closed; -; 61
begin first 12 =>
term 1 =>
serve => term over; status; 61
cut => term over; -; 61
serve => term over; -; 61
term 1 =>
serve => closed; stay; 61
serve => closed; -; 61
reads => 1
writes => 1
begin first 12 =>
cut => done; -; 0
serve => closed; -; 0
reads => 0
",
    ),
    (
        "a new link",
        "\
live => no
port first 12; write fault =>
serve => closed; -; 0
cut => done; -; 0
reads => 0
open => yes
live => yes
open => no
",
    ),
];

/// How connections end, and how the links answer afterwards.
pub static ENDINGS: [LinkStory; 4] = [
    (
        "used again after the end of the input",
        "begin first 9 =>\nserve => closed; status; 61\n",
    ),
    (
        "used again after a cut",
        "begin first 9; read block =>\nserve => idle; status; 61\ncut => done; -; 61\nserve => closed; -; 61\n",
    ),
    (
        "used again after a read that failed",
        "begin first 9; read fault =>\nserve => read fault; status; 61\n",
    ),
    (
        "used again after a write that failed",
        "begin first 9; write 2; write fault =>\nserve => write fault; status; 2\n",
    ),
];

/// A link that is used again without being opened: it answers as before and touches neither port nor desk.
pub const AGAIN: &str = "\
live => no
term 0 =>
port line stay; write fault =>
again => same; -; 0
cut => done; -; 0
again => same; -; 0
reads => 0
writes => 0
open => yes
live => yes
open => no
term 2 =>
port first 12 =>
serve => closed; status stay; 64
";
