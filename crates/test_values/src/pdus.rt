//! Worked octets of each kind of PDU, in both directions.

use crate::lines::{Listener, check_lines};
use dmr_pdu::{OutOfMemory, Pdu, octets_mean_one_pdu};
use std::test::Fail;

/// Ten octets in hexadecimal digits, and the PDU that they are, in words.
///
/// Those at the end agree with no layout. These are PV_GRANT on channel 0, on 4095, and with a bit that has to be 0. Next
/// come LB 0 and a feature set, then a bit that has to be 0 in TV_GRANT, C_ALOHA, C_AHOY (twice) and P_CLEAR. The last
/// are C_MOVE and P_CLEAR on channel 0, and opcodes that are not in the table.
const PDUS: &str = "\
99000000111234000000 => C_ALOHA sync=0 version=0 offset=0 active=0 mask=0 function=0 nrand_wait=0 register=1 backoff=1 system=4660 address=0
99003E00FFCC85FF00C8 => C_ALOHA sync=1 version=7 offset=1 active=0 mask=0 function=0 nrand_wait=7 register=1 backoff=15 system=52357 address=16711880
990026B0EA5F5D98C987 => C_ALOHA sync=1 version=1 offset=1 active=0 mask=22 function=0 nrand_wait=7 register=0 backoff=10 system=24413 address=10013063
990023D9DA8D08F07DA8 => C_ALOHA sync=1 version=0 offset=1 active=1 mask=27 function=0 nrand_wait=14 register=1 backoff=10 system=36104 address=15760808
99000046F5003BFF0000 => C_ALOHA sync=0 version=0 offset=0 active=0 mask=8 function=3 nrand_wait=7 register=1 backoff=5 system=59 address=16711680
B9000000110007000000 => C_MOVE register=1 backoff=1 lpcn=7
B90000001D0856000000 => C_MOVE register=1 backoff=13 lpcn=2134
B90000000E02A8000000 => C_MOVE register=0 backoff=14 lpcn=680
B90000000A0F00000000 => C_MOVE register=0 backoff=10 lpcn=3840
9F00020EFFFEC60003E9 => C_RAND options=1 flags=0 kind=registration target=16776902 source=1001
9F0048811D290B15B1BD => C_RAND options=36 flags=8 kind=talkgroup_voice target=1911051 source=1421757
9F00EFAC4EFAFA0E7DF3 => C_RAND options=119 flags=26 kind=12 target=5176058 source=949747
9F005500FF0000E161FF => C_RAND options=42 flags=16 kind=individual_voice target=16711680 source=14770687
9C0000000003EA0003E9 => C_AHOY options=0 group=0 kind=individual_voice called=1002 calling=1001
9C007A0BAB0189B29A93 => C_AHOY options=61 group=0 kind=11 called=11207049 calling=11704979
9C00140000FF00FFFFE5 => C_AHOY options=10 group=0 kind=individual_voice called=65280 calling=16777189
9C000000FFA08D5FFFEB => C_AHOY options=0 group=0 kind=individual_voice called=16752781 calling=6291435
A00000C40003E9FFFEC6 => C_ACKD info=0 reason=Reg_Accepted spare=0 target=1001 additional=16776902
A000CE3B69F810A58865 => C_ACKD info=103 reason=29 spare=1 target=6944784 additional=10848357
A000B8C99EC9458A7150 => C_ACKD info=92 reason=100 spare=1 target=10406213 additional=9072976
A00000FF93F100BCFF5D => C_ACKD info=0 reason=127 spare=1 target=9695488 additional=12386141
A10000880003E90003EA => C_ACKU info=0 reason=MS_Accepted spare=0 target=1001 additional=1002
A100DEAE5B3A7F940516 => C_ACKU info=111 reason=87 spare=0 target=5978751 additional=9700630
A100FF33FF0000000900 => C_ACKU info=127 reason=153 spare=1 target=16711680 additional=2304
B100001800005B0003E9 => TV_GRANT lpcn=1 slot=1 late=0 target=91 source=1001
B100001C00005B0003E9 => TV_GRANT lpcn=1 slot=1 late=1 target=91 source=1001
B1004E00FFFF00D06A3C => TV_GRANT lpcn=1248 slot=0 late=0 target=16776960 source=13658684
B1000048FFFF7C00FFFF => TV_GRANT lpcn=4 slot=1 late=0 target=16777084 source=65535
B10059FCC95AFFFF0045 => TV_GRANT lpcn=1439 slot=1 late=1 target=13196031 source=16711749
B00021E86FBD09886B08 => PV_GRANT lpcn=542 slot=1 target=7322889 source=8940296
B000CAB0D4B9F8550A41 => PV_GRANT lpcn=3243 slot=0 target=13941240 source=5573185
B000FF00FF00FF2CFF06 => PV_GRANT lpcn=4080 slot=0 target=16711935 source=2948870
B00000B0FFFFFFFF4747 => PV_GRANT lpcn=11 slot=0 target=16777215 source=16729927
AE00001100005BFFFECA => P_CLEAR lpcn=1 group=1 target=91 source=16776906
AE0075C1DD7F1D389AE3 => P_CLEAR lpcn=1884 group=1 target=14515997 source=3709667
AE000C00FF00FF00FF00 => P_CLEAR lpcn=192 group=0 target=16711935 source=65280
AE0000F1A02CF60000C8 => P_CLEAR lpcn=15 group=1 target=10497270 source=200
B00000080003EA0003E9 => OTHER B00000080003EA0003E9
B000FFF80003EA0003E9 => OTHER B000FFF80003EA0003E9
B000FFFFDAE455FF0000 => OTHER B000FFFFDAE455FF0000
1F00020EFFFEC60003E9 => OTHER 1F00020EFFFEC60003E9
9F01020EFFFEC60003E9 => OTHER 9F01020EFFFEC60003E9
B100001900005B0003E9 => OTHER B100001900005B0003E9
9900FF0000B254D000FF => OTHER 9900FF0000B254D000FF
9C00B302ECC5C61DBCEB => OTHER 9C00B302ECC5C61DBCEB
9C00F828BF3C05ADDA72 => OTHER 9C00F828BF3C05ADDA72
AE002F2B762EEBC29128 => OTHER AE002F2B762EEBC29128
B90000001F0000000000 => OTHER B90000001F0000000000
AE00000000F1C4C50000 => OTHER AE00000000F1C4C50000
00000000000000000000 => OTHER 00000000000000000000
FFFFFFFFFFFFFFFFFFFF => OTHER FFFFFFFFFFFFFFFFFFFF
";

/// Octets as a listener of lines.
#[derive(Drop)]
struct InWords;

impl Listener for InWords {
    fn answer_input(&mut self, input: &str, said: &mut String) -> Result<(), OutOfMemory> {
        let mut octets = [0; 10];
        let is_known = set_octets(&mut octets, input);
        let pdu = Pdu::from_octets(&octets);
        if is_known && pdu.to_octets() == octets {
            write!(said, "{pdu}")
        } else {
            said.push_str("?")
        }
    }
}

/// Sets octets to those of hexadecimal digits. Returns whether there are two digits for each octet.
pub fn set_octets(octets: &mut [u8], digits: &str) -> bool {
    let mut left = digits;
    for octet in octets {
        let Some((value, rest)) = first_octet(left) else {
            return false;
        };
        *octet = value;
        left = rest;
    }
    left.is_empty()
}

/// Returns the octet of the first two digits, and the digits after them.
fn first_octet(digits: &str) -> Option<(u8, &str)> {
    let value = u8::from_str_radix(digits.get(0..2)?, 16).ok()?;
    Some((value, digits.get(2..)?))
}

/// The octets are read as the PDU, and the PDU is written as these octets.
#[test]
fn both_ways(rt: HostRuntime) -> Result<(), Fail> {
    octets_mean_one_pdu();
    check_lines(&rt, InWords, "PDUs", PDUS)?;
    Ok(())
}
