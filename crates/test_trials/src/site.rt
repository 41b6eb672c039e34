//! The site of these tests: carriers 0 and 1, with channels 1 and 2. Nothing is up.

use dmr_core::Site;
use dmr_plan::Plan;
use std::alloc::Global;
use std::test::Fail;

/// The text of its site file.
pub const SITE: &str = "\
system = 0x1234
regi = 0xFFFEC6
tsi = 0xFFFECA
leave_bit = 0
hang = 100
maximum = 3000
ahoy_wait = 8
ahoy_tries = 3
grant_copies = 1
clear_copies = 1
backoff_low = 1
backoff_high = 8
tick_ms = 60
silence = 100
console_port = 7100
radios = [[1000, 1999]]
groups = [91, 92, 93, 94]
control = 0
[[carrier]]
number = 0
lpcn = 1
port = 7101
[[carrier]]
number = 1
lpcn = 2
port = 7102
";

/// Returns the site.
pub fn quiet_site(alloc: Global) -> Result<Site, Fail> {
    Ok(Site::new(alloc, Plan::read(alloc, SITE)?)?)
}
