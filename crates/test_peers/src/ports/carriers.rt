//! Scripts of base stations and strangers at a carrier's port.

use super::rows::Row;

/// The scripts of a carrier's port.
pub(super) static CARRIERS_PORT: [Row; 19] = [
    Row {
        name: "a base station polls: a read for each poll, and two at the beginning",
        silence: 10,
        until: 500,
        script: "\
0 1 comes
0 1 hello
100 1 polls 5
",
        notes: "\
10.0.0.1:1 connected
",
        got: 16,
        reads: Some(7),
    },
    Row {
        name: "999 ms without an octet are no silence",
        silence: 10,
        until: 999,
        script: "\
0 1 comes
0 1 hello
",
        notes: "\
10.0.0.1:1 connected
",
        got: 6,
        reads: None,
    },
    Row {
        name: "1,000 ms without an octet are silence",
        silence: 10,
        until: 1000,
        script: "\
0 1 comes
0 1 hello
",
        notes: "\
10.0.0.1:1 connected
10.0.0.1:1 disconnected: silence
",
        got: 6,
        reads: None,
    },
    Row {
        name: "waits that end at once are counted",
        silence: 10,
        until: 1000,
        script: "\
0 1 comes
0 1 hello
0 0 storms 4000
",
        notes: "\
10.0.0.1:1 connected
10.0.0.1:1 disconnected: silence
",
        got: 6,
        reads: None,
    },
    Row {
        name: "a stop of the program counts one wait",
        silence: 10,
        until: 5990,
        script: "\
0 1 comes
0 1 hello
100 0 stops 5000
",
        notes: "\
10.0.0.1:1 connected
",
        got: 6,
        reads: None,
    },
    Row {
        name: "a HELLO that comes octet by octet",
        silence: 10,
        until: 1000,
        script: "\
0 1 comes
0 1 sends a
200 1 sends a
400 1 sends a
600 1 sends a
800 1 sends a
",
        notes: "\
10.0.0.1:1 connected
10.0.0.1:1 disconnected: no HELLO
",
        got: 5,
        reads: None,
    },
    Row {
        name: "a dead connection is displaced after 1 s",
        silence: 100,
        until: 1000,
        script: "\
0 1 comes
0 1 hello
500 2 comes
500 2 hello
",
        notes: "\
10.0.0.1:1 connected
10.0.0.1:2 waits, 1 waiting
10.0.0.1:1 yields its place to 10.0.0.1:2, quiet for 1000 ms
10.0.0.1:1 disconnected: displaced by a newcomer
10.0.0.1:2 connected
",
        got: 12,
        reads: None,
    },
    Row {
        name: "a connection that has said nothing is displaced at once",
        silence: 100,
        until: 500,
        script: "\
0 1 comes
500 2 comes
500 2 hello
",
        notes: "\
10.0.0.1:1 connected
10.0.0.1:2 waits, 1 waiting
10.0.0.1:1 yields its place to 10.0.0.1:2, quiet for 500 ms
10.0.0.1:1 disconnected: displaced by a newcomer
10.0.0.1:2 connected
",
        got: 6,
        reads: None,
    },
    Row {
        name: "who polls each 60 ms is never displaced",
        silence: 100,
        until: 3000,
        script: "\
0 1 comes
0 1 hello
60 1 polls 50
100 2 comes
100 2 hello
",
        notes: "\
10.0.0.1:1 connected
10.0.0.1:2 waits, 1 waiting
",
        got: 106,
        reads: None,
    },
    Row {
        name: "a HELLO for another carrier displaces nobody",
        silence: 100,
        until: 3000,
        script: "\
0 1 comes
100 2 comes
100 2 other
",
        notes: "\
10.0.0.1:1 connected
10.0.0.1:2 waits, 1 waiting
",
        got: 0,
        reads: None,
    },
    Row {
        name: "the ninth newcomer: the oldest without a HELLO goes",
        silence: 100,
        until: 200,
        script: "\
0 1 comes
0 1 hello
100 2 comes
100 2 hello
120 3..9 comes
140 10 comes
",
        notes: "\
10.0.0.1:1 connected
10.0.0.1:2 waits, 1 waiting
10.0.0.1:3 waits, 2 waiting
10.0.0.1:4 waits, 3 waiting
10.0.0.1:5 waits, 4 waiting
10.0.0.1:6 waits, 5 waiting
10.0.0.1:7 waits, 6 waiting
10.0.0.1:8 waits, 7 waiting
10.0.0.1:9 waits, 8 waiting
10.0.0.1:3 refused: too many wait
10.0.0.1:10 waits, 8 waiting
",
        got: 6,
        reads: None,
    },
    Row {
        name: "a newcomer that has gone makes room",
        silence: 100,
        until: 200,
        script: "\
0 1 comes
0 1 hello
120 2..9 comes
130 5 ends
140 10 comes
",
        notes: "\
10.0.0.1:1 connected
10.0.0.1:2 waits, 1 waiting
10.0.0.1:3 waits, 2 waiting
10.0.0.1:4 waits, 3 waiting
10.0.0.1:5 waits, 4 waiting
10.0.0.1:6 waits, 5 waiting
10.0.0.1:7 waits, 6 waiting
10.0.0.1:8 waits, 7 waiting
10.0.0.1:9 waits, 8 waiting
10.0.0.1:10 waits, 8 waiting
",
        got: 6,
        reads: None,
    },
    Row {
        name: "4,000 strangers, and then a base station",
        silence: 100,
        until: 3000,
        script: "\
0 1000..4999 comes
10 1 comes
10 1 hello
60 1 polls 40
",
        notes: "\
..10.0.0.1:1 connected
",
        got: 86,
        reads: None,
    },
    Row {
        name: "512 octets in a window",
        silence: 100,
        until: 59,
        script: "\
0 1 comes
0 1 hello
0 1 floods
",
        notes: "\
10.0.0.1:1 connected
",
        got: 512,
        reads: None,
    },
    Row {
        name: "512 octets in each window",
        silence: 100,
        until: 179,
        script: "\
0 1 comes
0 1 hello
0 1 floods
",
        notes: "\
10.0.0.1:1 connected
",
        got: 1536,
        reads: None,
    },
    Row {
        name: "a peer that resets",
        silence: 100,
        until: 500,
        script: "\
0 1 comes
0 1 hello
100 1 resets
",
        notes: "\
10.0.0.1:1 connected
10.0.0.1:1 disconnected: a read failed
",
        got: 6,
        reads: None,
    },
    Row {
        name: "octets and the end at once",
        silence: 100,
        until: 500,
        script: "\
0 1 comes
0 1 hello
0 1 ends
",
        notes: "\
10.0.0.1:1 connected
10.0.0.1:1 disconnected: end of input
",
        got: 6,
        reads: None,
    },
    Row {
        name: "connections cannot be accepted for a while",
        silence: 100,
        until: 1000,
        script: "\
0 0 refuses
0 1 comes
0 1 hello
500 0 accepts
",
        notes: "\
..takes connections again
10.0.0.1:1 connected
",
        got: 6,
        reads: None,
    },
    Row {
        name: "calls are interrupted",
        silence: 100,
        until: 500,
        script: "\
0 0 interrupts
0 1 comes
0 1 hello
100 0 interrupts
100 1 polls 1
",
        notes: "\
10.0.0.1:1 connected
",
        got: 8,
        reads: None,
    },
];
