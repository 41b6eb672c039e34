//! Beginnings of stories: the events that lead to a common state.

/// Three calls: radio 1001 talks to talkgroup 91 on slot 1 of carrier 0, and 1002 to 92 and 1003 to 93 on the slots of
/// carrier 1. No slot is free.
pub const THREE_CALLS: &str = "\
heard 0.0 9F000001.91.1001 => began 0.1 1001 g91; queue 0.0 B100001800005B0003E9
poll 0 => send 0.0 B100001800005B0003E9
heard 0.0 9F000001.92.1002 => began 1.0 1002 g92; queue 0.0 B100002000005C0003EA
poll 0 => send 0.0 B100002000005C0003EA
heard 0.0 9F000001.93.1003 => began 1.1 1003 g93; queue 0.0 B100002800005D0003EB
poll 0 => send 0.0 B100002800005D0003EB
";

/// After the three calls: radio 1004's request for talkgroup 94 waits.
pub const LINE_BEHIND_CALLS: &str = "\
heard 0.0 9F00000100005E0003EC => lined 1004 g94; queue 0.0 A00001400003EC00005E
poll 0 => send 0.0 A00001400003EC00005E
";

/// Radio 1001 calls radio 1002, which is asked. The acknowledgement to 1001 (wait) and the C_AHOY have been sent.
pub const ONE_ASK: &str = "\
heard 0.0 9F0000000003EA0003E9 => asked 1001 1002 0 1; queue 0.0 A00001C00003E90003EA; queue 0.0 9C0000000003EA0003E9
poll 0 => send 0.0 A00001C00003E90003EA
poll 0 => send 0.0 9C0000000003EA0003E9
";
