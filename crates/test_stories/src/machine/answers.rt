//! What the site machine answers and no octets show: the order of acts, and that a carrier which is down is not answered.

use super::stage::{SiteStory, run_stories};
use super::starts::{LINE_BEHIND_CALLS, THREE_CALLS};
use crate::site_file::{LOUD, SMALL};
use std::test::Fail;

/// The call on slot 1 of carrier 0 ends after its hang time and its P_CLEAR is sent. The tick that ends the next call
/// serves the line.
const LINE_IS_SERVED: &str = "\
99 tick =>
tick => ended 0.1; queue 0.1 AE00001100005BFFFECA
poll 0 => fill 0.0 99000000111234000000; send 0.1 AE00001100005BFFFECA
tick => ended 1.0; queue 1.0 AE00001100005CFFFECA; unlined 1004; began 0.1 1004 g94; queue 0.0 B100001800005E0003EC
poll 0 => send 0.0 B100001800005E0003EC
poll 1 => send 1.0 AE00001100005CFFFECA
";

/// The last of the three calls ends, and nothing waits any more.
const LAST_CALL_ENDS: &str = "\
tick => ended 1.1; queue 1.1 AE00001100005DFFFECA
poll 1 => send 1.1 AE00001100005DFFFECA
98 tick =>
tick => ended 0.1; queue 0.1 AE00001100005EFFFECA
poll 0 => fill 0.0 99000000111234000000; send 0.1 AE00001100005EFFFECA
200 tick =>
";

static STORIES: [SiteStory; 3] = [
    // A request waits while no slot is free. The first tick that finds a free slot grants it; the tick that ends the
    // call on that slot does not.
    SiteStory {
        name: "line is served on the cleared slot",
        site: SMALL,
        radios: Some(1004),
        input: &[
            THREE_CALLS,
            LINE_BEHIND_CALLS,
            LINE_IS_SERVED,
            LAST_CALL_ENDS,
        ],
    },
    // One tick ends a call, repeats an ask and serves a line, with four copies of each grant and P_CLEAR: 13 acts, of
    // which 9 queue a PDU. The fourth Fill before this tick is a late entry.
    SiteStory {
        name: "busiest tick",
        site: LOUD,
        radios: Some(1006),
        input: &[
            "\
heard 0.0 9F000001.91.1001 => began 0.1 1001 g91; queue 0.0 B1000018.91.1001; queue 0.0 B1000018.91.1001; \
    queue 0.0 B1000018.91.1001; queue 0.0 B1000018.91.1001
4 poll 0 => send 0.0 B1000018.91.1001
heard 0.0 9F000001.92.1002 => began 1.0 1002 g92; queue 0.0 B1000020.92.1002; queue 0.0 B1000020.92.1002; \
    queue 0.0 B1000020.92.1002; queue 0.0 B1000020.92.1002
4 poll 0 => send 0.0 B1000020.92.1002
heard 0.0 9F000001.93.1003 => began 1.1 1003 g93; queue 0.0 B1000028.93.1003; queue 0.0 B1000028.93.1003; \
    queue 0.0 B1000028.93.1003; queue 0.0 B1000028.93.1003
4 poll 0 => send 0.0 B1000028.93.1003
heard 0.0 9F000001.94.1004 => lined 1004 g94; queue 0.0 A00001400003EC00005E
poll 0 => send 0.0 A00001400003EC00005E
93 tick =>
heard 0.0 9F000000.1006.1005 => asked 1005 1006 0 1; queue 0.0 A00001C00003ED0003EE; queue 0.0 9C0000000003EE0003ED
poll 0 => send 0.0 A00001C00003ED0003EE
poll 0 => send 0.0 9C0000000003EE0003ED
6 tick =>
tick => ended 0.1; queue 0.1 AE00001100005BFFFECA; queue 0.1 AE00001100005BFFFECA; \
    queue 0.1 AE00001100005BFFFECA; queue 0.1 AE00001100005BFFFECA
3 poll 0 => fill 0.0 99000000111234000000; send 0.1 AE00001100005BFFFECA
poll 0 => fill 0.0 B100002400005C0003EA; send 0.1 AE00001100005BFFFECA
tick => ended 1.0; queue 1.0 AE00001100005CFFFECA; queue 1.0 AE00001100005CFFFECA; \
    queue 1.0 AE00001100005CFFFECA; queue 1.0 AE00001100005CFFFECA; asked 1005 1006 0 2; \
    queue 0.0 9C0000000003EE0003ED; unlined 1004; began 0.1 1004 g94; queue 0.0 B100001800005E0003EC; \
    queue 0.0 B100001800005E0003EC; queue 0.0 B100001800005E0003EC; queue 0.0 B100001800005E0003EC
",
        ],
    },
    // An event of a carrier that is down, or that the site does not have, has no acts and changes nothing.
    SiteStory {
        name: "carrier that is down",
        site: SMALL,
        radios: Some(1002),
        input: &[
            "\
lost 0 =>
heard 0.0 9F000001.91.1001 =>
heard 0.0 9F00020E.16776902.1005 =>
noise 0.0 =>
active 0.1 =>
poll 0 =>
lost 0 =>
poll 9 =>
up 0 =>
poll 0 => fill 0.0 99000000111234000000
say status => reply status 2 2 0 0 0
",
        ],
    },
];

#[test]
fn answers(rt: HostRuntime) -> Result<(), Fail> {
    run_stories(&rt, &STORIES)
}
