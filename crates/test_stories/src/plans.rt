//! Tests of site files and their faults. Each case is the common site file with changes.

use crate::language::{Listener, expect_same, run_parts};
use crate::site_file::{SMALL, plan_of, reading_of};
use dmr_pdu::{Address, CarrierNo, Lpcn, OutOfMemory};
use dmr_plan::{CarrierRow, Plan, PlanFault, RadioRange};
use std::alloc::Global;
use std::fmt::Display;
use std::test::Fail;

/// Changes of the site file, each with the result of reading it: `accepted`, or the text of the fault.
static STORIES: [&str; 7] = [
    // The TOML reader refuses bad TOML anywhere in the file, also a key given twice and a whole number beyond 64 bits.
    // Required keys have to be there.
    "\
SITE / system = | => not TOML
hang = 100 / hang = => not TOML
hang = 100 / hang = 100|hang = 100 => not TOML
control = 0 / control = 0|name = 9223372036854775808 => not TOML
system = 0x1234 / system = 9223372036854775808 => not TOML
SITE / => missing system
regi = 0xFFFEC6| / => missing regi
groups = [91, 92, 93, 94]| / => missing groups
CARRIERS / => missing carrier
control = 0| / => missing control
port = 7102| / => missing port
",
    // Only whole numbers are numbers; each is in its range; two services have two addresses.
    "\
hang = 100 / hang = true => wrong type hang
hang = 100 / hang = 100.0 => wrong type hang
hang = 100 / hang = 1979-05-27 => wrong type hang
leave_bit = 0 / leave_bit = \"0\" => wrong type leave_bit
system = 0x1234 / system = [1] => wrong type system
system = 0x1234 / system = 65536 => out of range system
system = 0x1234 / system = -1 => out of range system
regi = 0xFFFEC6 / regi = 16776415 => out of range regi
tsi = 0xFFFECA / tsi = 0xFFFEC6 => repeated tsi
leave_bit = 0 / leave_bit = 7 => out of range leave_bit
control = 0 / control = 0|aloha_sync = 2 => out of range aloha_sync
hang = 100 / hang = 0 => out of range hang
",
    // The keys from `hang` to `console_port`.
    "\
hang = 100 / hang = 65536 => out of range hang
ahoy_tries = 3 / ahoy_tries = 9 => out of range ahoy_tries
grant_copies = 1 / grant_copies = 5 => out of range grant_copies
clear_copies = 1 / clear_copies = 0 => out of range clear_copies
backoff_low = 1 / backoff_low = 9 => out of range backoff_high
backoff_high = 8 / backoff_high = 16 => out of range backoff_high
tick_ms = 60 / tick_ms = 9 => out of range tick_ms
silence = 100 / silence = 0 => out of range silence
control = 0 / control = 0|term_entries = 0 => out of range term_entries
control = 0 / control = 0|term_entries = 100001 => out of range term_entries
control = 0 / control = 0|link_version = \"2\" => wrong type link_version
control = 0 / control = 0|link_version = 0 => out of range link_version
control = 0 / control = 0|link_version = 3 => out of range link_version
control = 0 / control = 0|link_version = 1 => accepted
console_port = 7100 / console_port = 0 => out of range console_port
",
    // The type of the whole array is checked before its count and its numbers. An `address` with another count has a
    // wrong type.
    "\
control = 0 / control = 0|address = \"127.0.0.1\" => wrong type address
control = 0 / control = 0|address = [127, 0, 0, 256] => out of range address
control = 0 / control = 0|address = [127, 0, 0] => wrong type address
control = 0 / control = 0|address = [300, \"a\"] => wrong type address
groups = [91, 92, 93, 94] / groups = [1, 1, \"a\"] => wrong type groups
groups = [91, 92, 93, 94] / groups = [1, 1, 0] => out of range groups
groups = [91, 92, 93, 94] / groups = [91, 92, 91] => repeated groups
groups = [91, 92, 93, 94] / groups = [1, 2, 3, 4, 5, 6, 7, 8, 9, 10, 11, 12, 13, 14, 15, 16, 17, 18, 19, 20, \
    21, 22, 23, 24, 25, 26, 27, 28, 29, 30, 31, 32, 33, 34, 35, 36, 37, 38, 39, 40, 41, 42, 43, 44, 45, 46, 47, \
    48, 49, 50, 51, 52, 53, 54, 55, 56, 57, 58, 59, 60, 61, 62, 63, 64, 65] => out of range groups
groups = [91, 92, 93, 94] / groups = [0] => out of range groups
groups = [91, 92, 93, 94] / groups = [] => accepted
",
    // The type of the whole array is checked before its count, and its count before each range. Ranges may overlap.
    "\
radios = [[1000, 1999]] / radios = [] => out of range radios
radios = [[1000, 1999]] / radios = [[1, 1], [2, 2], [3, 3], [4, 4], [5, 5], [6, 6], [7, 7], [8, 8], [9, 9], \
    [10, 10], [11, 11], [12, 12], [13, 13], [14, 14], [15, 15], [16, 16], [17, 17]] => out of range radios
radios = [[1000, 1999]] / radios = [[1, 1], [2, 2], [3, 3], [4, 4], [5, 5], [6, 6], [7, 7], [8, 8], [9, 9], \
    [10, 10], [11, 11], [12, 12], [13, 13], [14, 14], [15, 15], [16, 16], [1]] => wrong type radios
radios = [[1000, 1999]] / radios = [1000, 1999] => wrong type radios
radios = [[1000, 1999]] / radios = [[1000, 1999, 2000]] => wrong type radios
radios = [[1000, 1999]] / radios = [[2, 1], [1]] => wrong type radios
radios = [[1000, 1999]] / radios = [[1999, 1000]] => out of range radios
radios = [[1000, 1999]] / radios = [[0, 1999]] => out of range radios
radios = [[1000, 1999]] / radios = [[1, 16776416]] => out of range radios
radios = [[1000, 1999]] / radios = [[1000, 1500], [1400, 1999]] => accepted
",
    // Values that are not an array of 1 to 16 tables. Numbers of a carrier that are out of range, or that an earlier
    // carrier or the console has. A control carrier that is not in the file.
    "\
CARRIERS / carrier = 3| => wrong type carrier
CARRIERS / [carrier]|number = 0|lpcn = 1|port = 7101| => wrong type carrier
CARRIERS / carrier = []| => out of range carrier
CARRIERS / carrier = [{ number = 0, lpcn = 1, port = 7101 }, 1]| => wrong type carrier
number = 1 / number = 16 => out of range number
lpcn = 1 / lpcn = 0 => out of range lpcn
lpcn = 2 / lpcn = 4095 => out of range lpcn
number = 1 / number = 0 => repeated number
lpcn = 2 / lpcn = 1 => repeated lpcn
port = 7102 / port = 7101 => repeated port
port = 7102 / port = 7100 => repeated port
control = 0 / control = 2 => out of range control
control = 0 / control = 16 => out of range control
",
    // Of several faults, the first in the order of the keys is reported. The carriers are checked table by table.
    "\
hang = 100 / hang = 0 & regi = 0xFFFEC6| / => missing regi
control = 0 / control = 0|address = [1]|link_version = 3 => out of range link_version
control = 0 / control = 0|link_version = 3|term_entries = 0 => out of range term_entries
lpcn = 1 / lpcn = 0 & number = 1 / number = 99 => out of range lpcn
control = 0 / control = 9 & port = 7102 / port = 0 => out of range port
",
];

/// A listener that reads the site file with the changes of each line, and answers with the result.
#[derive(Drop)]
struct Reader {
    alloc: Global,
}

impl Listener for Reader {
    fn answer_input(&mut self, input: &str, said: &mut String) -> Result<(), OutOfMemory> {
        match reading_of(self.alloc, input) {
            Ok(_) => said.push_str("accepted"),
            Err(fault) => write_text(said, &fault),
        }
    }
}

/// Writes the text of a value.
fn write_text<D: Display>(said: &mut String, value: &D) -> Result<(), OutOfMemory> {
    write!(said, "{value}")
}

#[test]
fn reports_faults(rt: HostRuntime) -> Result<(), Fail> {
    dmr_plan::limits_are_stated();
    dmr_registry::limits_are_stated();
    dmr_pool::limits_are_stated();
    for story in &STORIES {
        run_parts(&rt, Reader { alloc: rt.alloc() }, "site file", &[*story])?;
    }
    Ok(())
}

/// An allocation failure has a text of its own.
#[test]
fn reports_out_of_memory(rt: HostRuntime) -> Result<(), Fail> {
    let mut input = String::new(rt.alloc());
    write_text(&mut input, &PlanFault::OutOfMemory)?;
    assert_eq!(rt; input.as_str(), "out of memory");
    Ok(())
}

/// The optional keys: each has a value other than its default, but `leave_bit` is left out.
const MORE_KEYS: &str = "\
leave_bit = 0| / \
aloha_sync = 1|aloha_version = 7|aloha_offset = 1|aloha_active = 1|\
nrand_wait = 15|term_entries = 1|link_version = 2|address = [10, 0, 0, 255]|";

/// Carriers as an array of inline tables, and keys that the table of keys doesn't have.
const WRITTEN_OTHERWISE: &str = "\
CARRIERS / carrier = [{ number = 0, lpcn = 1, port = 7101 }, { number = 1, lpcn = 2, port = 7102 }]|\
name = \"north\"|[extra]|hang = \"x\"|";

/// The numbers of the keys from `system` to `console_port`, without `leave_bit` and `address`, in the order of the
/// keys.
type Numbers = [u32; 21];

/// Changes of the site file, and the values of its keys: their numbers, `leave_bit` and `address`.
static VALUES: [(&str, Numbers, Option<u8>, [u8; 4]); 2] = [
    (
        SMALL,
        [
            0x1234, 0xFFFEC6, 0xFFFECA, 0, 0, 0, 0, 0, 100, 3000, 8, 3, 1, 1, 1, 8, 60, 100, 10000,
            1, 7100,
        ],
        Some(0),
        [127, 0, 0, 1],
    ),
    (
        MORE_KEYS,
        [
            0x1234, 0xFFFEC6, 0xFFFECA, 1, 7, 1, 1, 15, 100, 3000, 8, 3, 1, 1, 1, 8, 60, 100, 1, 2,
            7100,
        ],
        None,
        [10, 0, 0, 255],
    ),
];

/// Returns the numbers of a plan.
fn numbers_of(plan: &Plan) -> Numbers {
    [
        plan.system().get(),
        plan.regi().get(),
        plan.tsi().get(),
        u32::from(plan.aloha_sync()),
        plan.aloha_version().get(),
        u32::from(plan.aloha_offset()),
        u32::from(plan.aloha_active()),
        plan.nrand_wait().get(),
        u32::from(plan.hang()),
        u32::from(plan.maximum()),
        u32::from(plan.ahoy_wait()),
        u32::from(plan.ahoy_tries()),
        u32::from(plan.grant_copies()),
        u32::from(plan.clear_copies()),
        u32::from(plan.backoff_low()),
        u32::from(plan.backoff_high()),
        u32::from(plan.tick_ms()),
        u32::from(plan.silence()),
        plan.term_entries(),
        u32::from(plan.link_version()),
        u32::from(plan.console_port()),
    ]
}

/// Checks each key's value, and the defaults of the optional keys.
#[test]
fn reads_each_value(rt: HostRuntime) -> Result<(), Fail> {
    for (changes, numbers, leave_bit, address) in &VALUES {
        let plan = plan_of(rt.alloc(), changes)?;
        expect_same(
            &rt,
            changes,
            numbers_of(&plan).as_slice(),
            numbers.as_slice(),
        );
        expect_same(&rt, changes, plan.leave_bit(), *leave_bit);
        expect_same(&rt, changes, plan.address(), address.as_slice());
        expect_same(&rt, changes, plan.control().get(), 0);
    }
    Ok(())
}

/// Checks the equality of plans.
#[test]
fn same_plans(rt: HostRuntime) -> Result<(), Fail> {
    let plain = plan_of(rt.alloc(), SMALL)?;
    assert!(rt; plain != plan_of(rt.alloc(), MORE_KEYS)?);
    assert!(rt; plain == plan_of(rt.alloc(), WRITTEN_OTHERWISE)?);
    Ok(())
}

/// Checks which carriers, radios and talkgroups the site has, and which it doesn't have.
#[test]
fn finds_carriers_radios_and_groups(rt: HostRuntime) -> Result<(), Fail> {
    let plan = plan_of(rt.alloc(), SMALL)?;
    let range = RadioRange {
        first: Address::new(1000),
        last: Address::new(1999),
    };
    let second = CarrierRow {
        number: CarrierNo::new(1),
        lpcn: Lpcn::new(2),
        port: 7102,
    };
    assert_eq!(rt; plan.radios(), [range].as_slice());
    assert_eq!(rt; plan.groups().len(), 4);
    assert_eq!(rt; plan.carrier().len(), 2);
    assert_eq!(rt; plan.carrier_with(CarrierNo::new(1)), Some(second));
    assert_eq!(rt; plan.carrier_with(CarrierNo::new(2)), None);
    assert!(rt; plan.lists_radio(Address::new(1000)) && plan.lists_radio(Address::new(1999)));
    assert!(rt; !plan.lists_radio(Address::new(999)) && !plan.lists_radio(Address::new(2000)));
    assert!(rt; plan.lists_group(Address::new(94)) && !plan.lists_group(Address::new(95)));
    Ok(())
}
