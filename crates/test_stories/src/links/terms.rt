//! Stories of a carrier's link that stops and goes on later: after many reads, at the end of a term, at a shut gate, or
//! at a cut. Also stories of a link that is used again.

use super::LinkStory;

/// A call of `serve` makes at most 64 reads, interrupted reads included.
pub static PAUSES: [LinkStory; 5] = [
    (
        "the 65th read is made by the next call",
        "\
begin single hello registers registers poll; octets poll =>
serve => paused; up heard heard poll; 33
reads => 64
live => yes
serve => closed; poll lost; welcome accepted done accepted done
reads => 66
",
    ),
    (
        "a 64th read that ends",
        "\
begin single hello registers registers 3; read end =>
serve => closed; up heard heard lost; 3
reads => 64
",
    ),
    (
        "a 64th read that fails",
        "\
begin single hello registers registers 3; read fault =>
serve => read fault; up heard heard lost; 3
reads => 64
",
    ),
    (
        "a 64th read that would block",
        "\
begin single hello registers registers 3; read block; octets 0 =>
serve => idle; up heard heard; 3
reads => 64
serve => closed; poll lost; 33
",
    ),
    (
        "interrupted reads are counted",
        "\
begin 16 read interrupted; single hello registers 3 0 5; 11 read interrupted; octets 0 =>
serve => paused; up heard poll; 33
reads => 64
serve => closed; lost; 33
reads => 65

# A 64th read that is interrupted the 17th time in a row.
begin single hello registers poll; 11 octets poll; 17 read interrupted; octets poll =>
serve => read fault; up heard poll poll poll poll poll poll poll poll poll poll poll poll lost; \
welcome accepted done fill done fill done fill done fill done fill done fill done fill done fill done fill done \
fill done fill done
reads => 64

# Those of the call before are no longer in a row.
begin single hello registers poll; 12 octets poll; 16 read interrupted; 16 read interrupted; octets bye =>
serve => paused; up heard poll poll poll poll poll poll poll poll poll poll poll poll poll; \
welcome accepted done fill done fill done fill done fill done fill done fill done fill done fill done fill done \
fill done fill done fill done
reads => 64
serve => closed; lost; \
welcome accepted done fill done fill done fill done fill done fill done fill done fill done fill done fill done \
fill done fill done fill done
",
    ),
];

/// If the desk's term is over or the gate is shut, the next call deposits the remaining events, before anything else
/// and once.
pub static STOPS: [LinkStory; 5] = [
    (
        "terms of one event",
        "\
begin first 36 =>
term 0 =>
serve 0 => term over; -; 0; 1 1
serve 0 => term over; -; 0; 1 1
live => yes
open => no
term 1 =>
serve 0 => term over; up; 3; 2 2
term 1 =>
serve 0 => term over; heard; 3; 2 2
term 1 =>
serve 0 => term over; poll; 33; 2 2
term 1 =>
serve 0 => closed; lost; 33; 1 1
live => no
reads => 2
",
    ),
    (
        "terms of more events",
        "\
begin first 36 =>
term 2 =>
serve 0 => term over; up heard; 3; 3 3
serve 0 => term over; -; 3; 1 1
term 2 =>
serve 0 => closed; poll lost; 33; 2 2
begin first 36 =>
term 3 =>
serve 0 => term over; up heard poll; 33; 4 4
term 1 =>
serve 0 => closed; lost; 33; 1 1
begin first 36 =>
term 4 =>
serve 0 => closed; up heard poll lost; 33; 4 4
",
    ),
    (
        "a fault is kept with its lost",
        "\
begin octets hello 6 =>
term 1 =>
serve => term over; up; 3
live => yes
term 1 =>
serve => unknown type; lost; 3
begin octets hello; read fault =>
term 1 =>
serve => term over; up; 3
term 1 =>
serve => read fault; lost; 3
reads => 2
begin octets hello poll poll; write fault =>
term 1 =>
serve => term over; up; 0
term 1 =>
serve => write fault; lost; 0
begin octets hello bye poll =>
term 1 =>
serve => term over; up; 3
term 1 =>
serve => closed; lost; 3
",
    ),
    (
        "a gate that is shut",
        "\
begin first 36 =>
serve 1 => gate shut; -; 0; 1 0
serve 1 => gate shut; -; 0; 1 0
live => yes
open => no
serve 2 => gate shut; up; 3; 2 1
serve 2 => gate shut; heard; 3; 2 1
serve 2 => gate shut; poll; 33; 2 1
serve 0 => closed; lost; 33; 1 1
reads => 2

begin first 36 =>
serve 2 => gate shut; up; 3; 2 1
serve 0 => closed; heard poll lost; 33; 3 3
begin first 36 =>
serve 3 => gate shut; up heard; 3; 3 2
serve 0 => closed; poll lost; 33; 2 2
begin first 36 =>
serve 4 => gate shut; up heard poll; 33; 4 3
serve 0 => closed; lost; 33; 1 1
begin first 36 =>
serve 5 => closed; up heard poll lost; 33; 4 4
",
    ),
    (
        "a gate is left after a write that failed",
        "\
begin first 36; write fault =>
serve 0 => write fault; up lost; 0; 2 2
begin first 36; write fault =>
serve 2 => gate shut; up; 0; 2 1
serve 0 => write fault; lost; 0; 1 1
writes => 1
begin first 36; write 3; write 1; write block =>
serve 4 => gate shut; up heard poll; 4; 4 3
serve 0 => write fault; lost; 4; 1 1
writes => 3
",
    ),
];

/// A cut neither reads nor writes. The events that it leaves are deposited later.
pub static CUTS: [LinkStory; 5] = [
    (
        "links that are cut",
        "\
begin first 36; read block; octets poll =>
serve => idle; up heard poll; 33
cut => done; lost; 33
live => no
serve 1 => closed; -; 33; 0 0
cut => done; -; 33
reads => 2

begin octets 1 4; read block; octets 1 0 0 1 =>
serve => idle; -; 0
cut => done; -; 0
serve => closed; -; 0
reads => 2

# A burst that has begun means nothing, and the next connection is served whole.
begin octets 1 4 1 0 0 1 2 26 0; read block =>
serve => idle; up; 3
cut => done; lost; 3
open => yes
port first 36 =>
serve => closed; up heard poll lost; 33

begin first 36 =>
cut => done; -; 0
serve => closed; -; 0
reads => 0

# The event that a gate kept is handed in, and not answered.
begin first 36 =>
serve 1 => gate shut; -; 0; 1 0
cut => done; up lost; 0
serve => closed; -; 0
begin first 36 =>
serve 3 => gate shut; up heard; 3; 3 2
cut => done; poll lost; 3
serve => closed; -; 3
writes => 1

# What was read behind it means nothing.
begin octets hello poll poll 6 =>
term 1 =>
serve => term over; up; 3
term 9 =>
cut => done; poll lost; 3
",
    ),
    (
        "a cut at the end of a term, and another cut",
        "\
begin first 36; read block =>
term 3 =>
serve => idle; up heard poll; 33
cut => term over; -; 33
live => yes
open => no
cut => term over; -; 33
term 1 =>
cut => done; lost; 33
live => no
serve 1 => closed; -; 33; 0 0

begin first 36 =>
term 2 =>
serve => term over; up heard; 3
cut => term over; -; 3
term 1 =>
cut => term over; poll; 3
open => no
term 1 =>
cut => done; lost; 3
serve 1 => closed; -; 3; 0 0
reads => 1
writes => 1
",
    ),
    (
        "a cut at the end of a term, and then a serve",
        "\
begin first 36; read block; octets poll =>
term 3 =>
serve => idle; up heard poll; 33
cut => term over; -; 33
serve 0 => term over; -; 33; 1 1
term 1 =>
serve 0 => closed; lost; 33; 1 1
serve 0 => closed; -; 33; 0 0
reads => 2

begin first 36; read fault =>
term 2 =>
serve => term over; up heard; 3
cut => term over; -; 3
term 9 =>
serve 1 => gate shut; -; 3; 1 0
serve 2 => gate shut; poll; 3; 2 1
serve 0 => closed; lost; 3; 1 1
serve 0 => closed; -; 3; 0 0
reads => 1
writes => 1
",
    ),
    (
        "a cut of a link whose lost is kept after a fault",
        "\
begin octets hello 6 =>
term 1 =>
serve => term over; up; 3
term 1 =>
cut => done; lost; 3
serve => closed; -; 3
begin octets hello; read fault =>
term 1 =>
serve => term over; up; 3
cut => term over; -; 3
term 1 =>
serve => closed; lost; 3
begin octets hello poll; write fault =>
serve 2 => gate shut; up; 0; 2 1
cut => done; lost; 0
serve => closed; -; 0
",
    ),
    (
        "a new link",
        "\
live => no
port first 36; write fault =>
serve 1 => closed; -; 0; 0 0
cut => done; -; 0
reads => 0
open => yes
live => yes
open => no
",
    ),
];

/// How connections end, and how the links answer afterwards.
pub static ENDINGS: [LinkStory; 8] = [
    (
        "used again after the end of the input",
        "begin first 9 =>\nserve => closed; up lost; 3\n",
    ),
    (
        "used again after a bye",
        "begin octets hello bye 1 4 =>\nserve => closed; up lost; 3\n",
    ),
    (
        "used again after a cut",
        "begin first 35; read block =>\nserve => idle; up heard; 3\ncut => done; lost; 3\nserve => closed; -; 3\n",
    ),
    (
        "used again after a read that failed",
        "begin first 9; read fault =>\nserve => read fault; up lost; 3\n",
    ),
    (
        "used again after a write that failed",
        "begin first 36; write 2; write fault =>\nserve => write fault; up lost; 2\n",
    ),
    (
        "used again after a bad frame",
        "begin octets hello 6 1 4 =>\nserve => unknown type; up lost; 3\n",
    ),
    (
        "used again after a bad frame before an up",
        "begin octets poll 1 4 =>\nserve => no hello; -; 0\n",
    ),
    (
        "used again after a refusal",
        "begin octets 1 4 2 0 0 1 1 4 =>\nserve => bad version; -; version\n",
    ),
];

/// A link that is used again without being opened: it answers as before and touches neither port nor desk.
pub const AGAIN: &str = "\
live => no
term 0 =>
port read fault; write fault =>
again 1 => same; -; 0; 0 0
cut => done; -; 0
again 1 => same; -; 0; 0 0
reads => 0
writes => 0
open => yes
live => yes
open => no
term 4 =>
port first 36 =>
serve => closed; up heard poll lost; 33
";

/// A connection whose input ends after any number of octets, whose port fails after any number, whose reads are
/// interrupted, or whose frame has another length than the table's.
pub static FAILS: [LinkStory; 4] = [
    (
        "the input ends after some octets",
        "\
rounds 0 to 5
begin first 0+ =>
serve => closed; -; 0

rounds 6 to 33
begin first 0+ =>
serve => closed; up lost; 3

rounds 34 to 35
begin first 0+ =>
serve => closed; up heard lost; 3

begin first 36 =>
serve => closed; up heard poll lost; 33
",
    ),
    (
        "a port takes some octets and then fails",
        "\
rounds 0 to 2
begin first 36; 0+ write 1; write fault =>
serve => write fault; up lost; 0+

rounds 3 to 32
begin first 36; 0+ write 1; write fault =>
serve => write fault; up heard poll lost; 0+
",
    ),
    (
        "interruptions in a row",
        "\
begin 16 read interrupted; first 36 =>
serve => closed; up heard poll lost; 33
begin 17 read interrupted; first 36 =>
serve => read fault; -; 0
",
    ),
    (
        "each other length",
        "\
rounds 0 to 3
begin octets 1 0+; read block =>
serve => bad length; -; 0

rounds 5 to 255
begin octets 1 0+; read block =>
serve => bad length; -; 0

rounds 0 to 25
begin octets 2 0+; read block =>
serve => bad length; -; 0

rounds 27 to 255
begin octets 2 0+; read block =>
serve => bad length; -; 0

rounds 1 to 255
begin octets 3 0+; read block =>
serve => bad length; -; 0
begin octets 5 0+; read block =>
serve => bad length; -; 0

begin octets 4 0; read block =>
serve => bad length; -; 0

rounds 2 to 255
begin octets 4 0+; read block =>
serve => bad length; -; 0
",
    ),
];
