//! Inputs of terms, and the expected results.

use super::meeting::Hold;
use super::spelling::Letters;
use super::stage::{Carrier, Opening};
use dmr_desk::{Ending, Pace};
use dmr_frames::Version;

/// Why an actor's worker ends (`None` if that depends on the schedule), its events, and the octets that its port has
/// taken so far.
pub type Part = (Option<Ending>, Letters, Letters);

/// The expected result of a term.
pub struct ExpectedEnd {
    /// The limit of its entries. If it is out of range, the term is refused, and the stage is handed back.
    pub limit: usize,
    /// The number of its entries.
    pub entries: usize,
    /// The parts of the two carriers, the ticker and the console.
    pub actors: &'static [Part],
}

/// Terms, one after the other.
pub struct TermStory {
    /// Its name.
    pub name: &'static str,
    /// The state at the beginning of the first term.
    pub opening: Opening<'static>,
    /// The expected results.
    pub terms: &'static [ExpectedEnd],
}

const FINISHED: Option<Ending> = Some(Ending::Finished);

const GATE_SHUT: Option<Ending> = Some(Ending::GateShut);

const TERM_OVER: Option<Ending> = Some(Ending::TermOver);

/// An actor without input, whose worker finishes.
const NOTHING: Part = (FINISHED, &[], &[]);

/// An actor without input, whose worker finishes or first learns that the term is over.
const NOTHING_AT_THE_END: Part = (None, &[], &[]);

/// A term that is refused.
const REFUSED: ExpectedEnd = ExpectedEnd {
    limit: 0,
    entries: 0,
    actors: &[],
};

/// A carrier without connections and holds.
pub const NO_CARRIER: Carrier<'static> = Carrier {
    steps: "",
    gate: Hold::Free,
    wait: Hold::Free,
};

/// No input at all.
pub const NOTHING_COMES: Opening<'static> = Opening {
    numbers: &[0, 1],
    first: NO_CARRIER,
    second: NO_CARRIER,
    greatest: Version::V1,
    paces: &[],
    pacer: Hold::Free,
    operator: "",
    input: (&[], 0),
};

/// HELLO and 100 POLLs of carrier 0: 102 entries.
pub const HUNDRED_POLLS: Opening<'static> = Opening {
    first: Carrier {
        steps: "not yet, connect, read block, again, hex 010401000001, 100 x hex 0300, read end",
        ..NO_CARRIER
    },
    ..NOTHING_COMES
};

/// One POLL of carrier 0. Its connection comes at the second call of `connect`, and its octets come after a wait.
const ONE_POLL_OF_0: &str =
    "not yet, connect, read block, again, hex 010401000001, hex 0300, read end";

/// The same of carrier 1.
const ONE_POLL_OF_1: &str =
    "not yet, connect, read block, again, hex 010401010002, hex 0300, read end";

/// The terms of the stories.
pub static STORIES: [TermStory; 8] = [
    // Carrier 1's first event waits until carrier 0 is at its gate, and carrier 0's until carrier 1 has received two
    // answers. One thread alone cannot serve them in either order.
    TermStory {
        name: "two workers at once",
        opening: Opening {
            first: Carrier {
                steps: ONE_POLL_OF_0,
                gate: Hold::Until { actor: 1, steps: 4 },
                ..NO_CARRIER
            },
            second: Carrier {
                steps: ONE_POLL_OF_1,
                gate: Hold::Until { actor: 0, steps: 1 },
                ..NO_CARRIER
            },
            ..NOTHING_COMES
        },
        terms: &[ExpectedEnd {
            limit: 100,
            entries: 6,
            actors: &[
                (FINISHED, &[(1, "UPL")], &[(1, "WFD")]),
                (FINISHED, &[(1, "UPL")], &[(1, "WD")]),
                NOTHING,
                NOTHING,
            ],
        }],
    },
    TermStory {
        name: "a term that is over",
        opening: HUNDRED_POLLS,
        terms: &[
            ExpectedEnd {
                limit: 100,
                entries: 100,
                actors: &[
                    (TERM_OVER, &[(1, "U"), (99, "P")], &[(1, "W"), (99, "FD")]),
                    NOTHING_AT_THE_END,
                    NOTHING_AT_THE_END,
                    NOTHING_AT_THE_END,
                ],
            },
            ExpectedEnd {
                limit: 100,
                entries: 2,
                actors: &[
                    (FINISHED, &[(1, "PL")], &[(1, "W"), (100, "FD")]),
                    NOTHING,
                    NOTHING,
                    NOTHING,
                ],
            },
        ],
    },
    // After each of two refused tries, a term runs as if it had not been tried: the link goes on in the middle of its
    // connection.
    TermStory {
        name: "a term that is tried again",
        opening: HUNDRED_POLLS,
        terms: &[
            REFUSED,
            ExpectedEnd {
                limit: 100_001,
                ..REFUSED
            },
            ExpectedEnd {
                limit: 40,
                entries: 40,
                actors: &[
                    (TERM_OVER, &[(1, "U"), (39, "P")], &[(1, "W"), (39, "FD")]),
                    NOTHING_AT_THE_END,
                    NOTHING_AT_THE_END,
                    NOTHING_AT_THE_END,
                ],
            },
            REFUSED,
            ExpectedEnd {
                limit: 100_001,
                ..REFUSED
            },
            ExpectedEnd {
                limit: 100,
                entries: 62,
                actors: &[
                    (FINISHED, &[(61, "P"), (1, "L")], &[(1, "W"), (100, "FD")]),
                    NOTHING,
                    NOTHING,
                    NOTHING,
                ],
            },
        ],
    },
    TermStory {
        name: "a gate that is shut at once",
        opening: Opening {
            first: Carrier {
                steps: ONE_POLL_OF_0,
                gate: Hold::Shut,
                ..NO_CARRIER
            },
            second: Carrier {
                steps: ONE_POLL_OF_1,
                gate: Hold::Until { actor: 0, steps: 1 },
                ..NO_CARRIER
            },
            ..NOTHING_COMES
        },
        terms: &[
            ExpectedEnd {
                limit: 100,
                entries: 3,
                actors: &[
                    (GATE_SHUT, &[], &[]),
                    (FINISHED, &[(1, "UPL")], &[(1, "WD")]),
                    NOTHING,
                    NOTHING,
                ],
            },
            ExpectedEnd {
                limit: 100,
                entries: 3,
                actors: &[
                    (FINISHED, &[(1, "UPL")], &[(1, "WFD")]),
                    (FINISHED, &[], &[(1, "WD")]),
                    NOTHING,
                    NOTHING,
                ],
            },
        ],
    },
    // Carrier 1's first event waits until carrier 0 is up and silent. The silence lasts until carrier 1 has received
    // three answers, and the third belongs to the last entry.
    TermStory {
        name: "silence while another fills the journal",
        opening: Opening {
            first: Carrier {
                steps: "not yet, connect, read block, again, hex 010401000001, read block, \
                        not yet, connect, read block, again, hex 010401000001, read end",
                wait: Hold::Until { actor: 1, steps: 6 },
                ..NO_CARRIER
            },
            second: Carrier {
                steps: "not yet, connect, read block, again, hex 010401010002, 2 x hex 0300, read end",
                gate: Hold::Until { actor: 0, steps: 3 },
                ..NO_CARRIER
            },
            ..NOTHING_COMES
        },
        terms: &[
            ExpectedEnd {
                limit: 4,
                entries: 4,
                actors: &[
                    (TERM_OVER, &[(1, "U")], &[(1, "W")]),
                    (TERM_OVER, &[(1, "UPP")], &[(1, "WDD")]),
                    NOTHING_AT_THE_END,
                    NOTHING_AT_THE_END,
                ],
            },
            ExpectedEnd {
                limit: 100,
                entries: 4,
                actors: &[
                    (FINISHED, &[(1, "LUL")], &[(1, "WW")]),
                    (FINISHED, &[(1, "L")], &[(1, "WDD")]),
                    NOTHING,
                    NOTHING,
                ],
            },
        ],
    },
    TermStory {
        name: "ticks and an operator",
        opening: Opening {
            paces: &[Pace::Tick, Pace::NotYet, Pace::Tick, Pace::Finished],
            operator: "connect, hex 7374617475730A",
            ..NOTHING_COMES
        },
        terms: &[ExpectedEnd {
            limit: 100,
            entries: 3,
            actors: &[
                NOTHING,
                NOTHING,
                (FINISHED, &[(1, "TT")], &[]),
                (FINISHED, &[(1, "S")], &[(1, "S")]),
            ],
        }],
    },
    TermStory {
        name: "a tick that is not asked for at the limit",
        opening: Opening {
            paces: &[Pace::Tick, Pace::Tick],
            ..NOTHING_COMES
        },
        terms: &[
            ExpectedEnd {
                limit: 1,
                entries: 1,
                actors: &[
                    NOTHING_AT_THE_END,
                    NOTHING_AT_THE_END,
                    (TERM_OVER, &[(1, "T")], &[]),
                    NOTHING_AT_THE_END,
                ],
            },
            ExpectedEnd {
                limit: 100,
                entries: 1,
                actors: &[NOTHING, NOTHING, (FINISHED, &[(1, "T")], &[]), NOTHING],
            },
        ],
    },
    // Carrier 0's first event waits until the pacer is asked. The pacer's tick waits until that event, which is the
    // last entry, has been answered.
    TermStory {
        name: "a tick that is dropped at the limit",
        opening: Opening {
            first: Carrier {
                steps: "not yet, connect, read block, again, hex 010401000001, read end",
                gate: Hold::Until { actor: 2, steps: 1 },
                ..NO_CARRIER
            },
            paces: &[Pace::Tick],
            pacer: Hold::Until { actor: 0, steps: 2 },
            ..NOTHING_COMES
        },
        terms: &[
            ExpectedEnd {
                limit: 1,
                entries: 1,
                actors: &[
                    (TERM_OVER, &[(1, "U")], &[(1, "W")]),
                    NOTHING_AT_THE_END,
                    (TERM_OVER, &[], &[]),
                    NOTHING_AT_THE_END,
                ],
            },
            ExpectedEnd {
                limit: 100,
                entries: 1,
                actors: &[
                    (FINISHED, &[(1, "L")], &[(1, "W")]),
                    NOTHING,
                    NOTHING,
                    NOTHING,
                ],
            },
        ],
    },
];
