//! Scripts of operators and web pages at the console's port.

use super::rows::Row;

/// The scripts of the console's port.
pub(super) static OPERATORS_PORT: [Row; 11] = [
    Row {
        name: "a request of HTTP in one part",
        silence: 100,
        until: 500,
        script: "\
0 1 comes
0 1 sends GET x
",
        notes: "\
10.0.0.1:1 connected
10.0.0.1:1 disconnected: a request of HTTP
",
        got: 0,
        reads: None,
    },
    Row {
        name: "a request of HTTP in two parts",
        silence: 100,
        until: 500,
        script: "\
0 1 comes
0 1 sends OPTI
100 1 sends ONS * HTTP
",
        notes: "\
10.0.0.1:1 connected
10.0.0.1:1 disconnected: a request of HTTP
",
        got: 4,
        reads: None,
    },
    Row {
        name: "other words",
        silence: 100,
        until: 500,
        script: "\
0 1 comes
0 1 says GETS x
",
        notes: "\
10.0.0.1:1 connected
",
        got: 7,
        reads: None,
    },
    Row {
        name: "a method in a later line",
        silence: 100,
        until: 500,
        script: "\
0 1 comes
0 1 says a
0 1 says GET x
",
        notes: "\
10.0.0.1:1 connected
",
        got: 8,
        reads: None,
    },
    Row {
        name: "a line that does not end",
        silence: 10,
        until: 1000,
        script: "\
0 1 comes
0 1 sends a
200 1 sends a
400 1 sends a
600 1 sends a
800 1 sends a
",
        notes: "\
10.0.0.1:1 connected
10.0.0.1:1 disconnected: a line did not end
",
        got: 5,
        reads: None,
    },
    Row {
        name: "lines that end",
        silence: 10,
        until: 1900,
        script: "\
0 1 comes
0 1 says a
0 1 sends b
200 1 says a
200 1 sends b
400 1 says a
400 1 sends b
600 1 says a
600 1 sends b
800 1 says a
800 1 sends b
1000 1 says a
1000 1 sends b
1200 1 says a
1200 1 sends b
1400 1 says a
1400 1 sends b
1600 1 says a
1600 1 sends b
1800 1 says a
1800 1 sends b
",
        notes: "\
10.0.0.1:1 connected
",
        got: 30,
        reads: None,
    },
    Row {
        name: "first come, first served",
        silence: 100,
        until: 200,
        script: "\
0 1 comes
100 2..10 comes
",
        notes: "\
10.0.0.1:1 connected
10.0.0.1:2 waits, 1 waiting
10.0.0.1:3 waits, 2 waiting
10.0.0.1:4 waits, 3 waiting
10.0.0.1:5 waits, 4 waiting
10.0.0.1:6 waits, 5 waiting
10.0.0.1:7 waits, 6 waiting
10.0.0.1:8 waits, 7 waiting
10.0.0.1:9 waits, 8 waiting
10.0.0.1:10 refused: too many wait
",
        got: 0,
        reads: None,
    },
    Row {
        name: "nobody is displaced",
        silence: 100,
        until: 3000,
        script: "\
0 1 comes
100 2 comes
100 2 hello
",
        notes: "\
10.0.0.1:1 connected
10.0.0.1:2 waits, 1 waiting
",
        got: 0,
        reads: None,
    },
    Row {
        name: "octets are kept and sent later",
        silence: 100,
        until: 500,
        script: "\
0 1 comes
0 1 takes 3
0 1 says abcdefg
100 1 takes 2
200 1 takes 100
300 1 ends
",
        notes: "\
10.0.0.1:1 connected
10.0.0.1:1 disconnected: end of input
",
        got: 8,
        reads: None,
    },
    Row {
        name: "octets that are kept twice, for 3 s each",
        silence: 100,
        until: 7000,
        script: "\
0 1 comes
0 1 takes 3
0 1 says abcdefg
3000 1 takes 5
3000 1 says abcdefg
6000 1 takes 100
6500 1 ends
",
        notes: "\
10.0.0.1:1 connected
10.0.0.1:1 disconnected: end of input
",
        got: 16,
        reads: None,
    },
    Row {
        name: "octets that are never taken",
        silence: 100,
        until: 5000,
        script: "\
0 1 comes
0 1 takes 3
0 1 says abcdefg
",
        notes: "\
10.0.0.1:1 connected
10.0.0.1:1 disconnected: what was written was not read
",
        got: 8,
        reads: None,
    },
];
