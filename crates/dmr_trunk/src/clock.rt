//! The system's clocks, in whole numbers.

use std::time::Clock;

/// Reads the clock: nanoseconds since any start. `None` if it cannot be read.
pub fn nanoseconds<R: Clock>(rt: &R) -> Option<u64> {
    match rt.monotonic() {
        Ok(since) => u64::try_from(since.as_nanos()).ok(),
        Err(_) => None,
    }
}

/// Reads the clock: milliseconds since any start. `None` if it cannot be read.
pub fn milliseconds<R: Clock>(rt: &R) -> Option<u64> {
    match rt.monotonic() {
        Ok(since) => u64::try_from(since.as_millis()).ok(),
        Err(_) => None,
    }
}

/// Reads the time of day: milliseconds since 1970, or 0 if it cannot be read.
pub fn time_of_day<R: Clock>(rt: &R) -> u64 {
    match rt.since_1970() {
        Ok(since) => u64::try_from(since.as_millis()).unwrap_or(0),
        Err(_) => 0,
    }
}
