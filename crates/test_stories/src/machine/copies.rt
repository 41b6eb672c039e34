//! Copies of a site, and sites that are equal.

use super::stage::{SiteStory, run_stories};
use super::starts::ONE_ASK;
use crate::site_file::SMALL;
use std::test::Fail;

/// Makes a copy, which equals the site. The following events go to the copy.
const COPIED: &str = "\
copy =>
same => yes
swap =>
";

/// Makes a copy, which equals the site. The following events go to the site.
const COPIED_ASIDE: &str = "\
copy =>
same => yes
";

/// Only one of the two has processed events, so they differ. The following events go to the other.
const TOLD_ONE: &str = "\
same => no
swap =>
";

/// Both have processed the same events, and they are equal.
const TOLD_BOTH: &str = "same => yes\n";

/// A call, and a radio that joins it late.
const TWO_REQUESTS: &str = "\
heard 0.0 9F000001.91.1001 => began 0.1 1001 g91; queue 0.0 B100001800005B0003E9
poll 0 => send 0.0 B100001800005B0003E9
heard 0.0 9F000001.91.1002 => queue 0.0 B100001C00005B0003E9
poll 0 => send 0.0 B100001C00005B0003E9
";

/// Two more calls, a request that waits, an operator who ends the first call, and the tick that serves the request.
const TWO_CALLS_AND_A_LINE: &str = "\
heard 0.0 9F000001.92.1002 => began 1.0 1002 g92; queue 0.0 B100002000005C0003EA
poll 0 => send 0.0 B100002000005C0003EA
heard 0.0 9F000001.93.1003 => began 1.1 1003 g93; queue 0.0 B100002800005D0003EB
poll 0 => send 0.0 B100002800005D0003EB
heard 0.0 9F00000100005E0003EC => lined 1004 g94; queue 0.0 A00001400003EC00005E
poll 0 => send 0.0 A00001400003EC00005E
say end 0.1 => reply ok; ended 0.1; queue 0.1 AE00001100005BFFFECA
tick =>
poll 0 => fill 0.0 99000000111234000000; send 0.1 AE00001100005BFFFECA
tick => unlined 1004; began 0.1 1004 g94; queue 0.0 B100001800005E0003EC
poll 0 => send 0.0 B100001800005E0003EC
";

/// A grant waits, the control slot has had noise, and ticks have been counted.
const COUNTED: &str = "\
heard 0.0 9F000001.91.1003 => began 0.1 1003 g91; queue 0.0 B100001800005B0003EB
noise 0.0 =>
4 tick =>
";

/// An ask that is repeated and accepted, noise on the control slot, and a call that goes on.
const ASK_GOES_ON: &str = "\
poll 0 => send 0.0 B100001800005B0003EB
poll 0 => fill 0.0 99000000121234000000
3 tick =>
tick => asked 1001 1002 0 2; queue 0.0 9C0000000003EA0003E9
heard 0.0 A1000088.1001.1002 => over 1001; began 1.0 1001 1002; queue 0.0 B00000200003EA0003E9
heard 0.0 9F00020E.16776902.1004 => joined 1004; queue 0.0 A00000C40003ECFFFEC6
91 tick =>
tick => ended 0.1; queue 0.1 AE00001100005BFFFECA
";

static STORIES: [SiteStory; 4] = [
    // A copy is made after two requests. It answers all later events as the site does, and equals the site before and
    // after them.
    SiteStory {
        name: "copy answers alike",
        site: SMALL,
        radios: Some(1004),
        input: &[
            TWO_REQUESTS,
            COPIED,
            TWO_CALLS_AND_A_LINE,
            TOLD_ONE,
            TWO_CALLS_AND_A_LINE,
            TOLD_BOTH,
        ],
    },
    // The same during an ask, while a grant waits, after noise on the control slot and after ticks.
    SiteStory {
        name: "copy has what was counted",
        site: SMALL,
        radios: Some(1003),
        input: &[
            ONE_ASK,
            COUNTED,
            COPIED_ASIDE,
            ASK_GOES_ON,
            TOLD_ONE,
            ASK_GOES_ON,
            TOLD_BOTH,
        ],
    },
    // A site and its copy differ once only one of them has processed an event that changes the state.
    SiteStory {
        name: "copy stands alone",
        site: SMALL,
        radios: Some(1004),
        input: &[
            ONE_ASK,
            "\
heard 0.0 9F000001.91.1003 => began 0.1 1003 g91; queue 0.0 B100001800005B0003EB
tick =>
alone tick => yes
alone active 0.1 => yes
alone noise 0.0 => yes
alone poll 0 => yes
alone up 0 => yes
alone heard 0.0 9F00020E.16776902.1003 => yes
alone heard 0.0 9F00020E.16776902.1004 => yes
alone heard 0.0 9F000001.92.1004 => yes
alone heard 0.0 9F000001.91.1004 => yes
alone heard 0.0 9F000000.1002.1001 => yes
alone heard 0.0 A1000088.1001.1002 => yes
",
        ],
    },
    // Sites of different plans differ even before any event.
    SiteStory {
        name: "sites of two plans differ",
        site: SMALL,
        radios: None,
        input: &[
            "\
control => 0
same => yes
other grant_copies = 1 / grant_copies = 4 & clear_copies = 1 / clear_copies = 4 =>
same => no
other =>
same => yes
",
        ],
    },
];

#[test]
fn copies(rt: HostRuntime) -> Result<(), Fail> {
    run_stories(&rt, &STORIES)
}
