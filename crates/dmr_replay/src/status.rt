//! The exit statuses of a replay and of a served site.

/// Success.
pub const OK: u8 = 0;

/// A file, the plan, the script, the output, a port, a poll or a variable of the environment is at fault.
pub const FAULT: u8 = 1;

/// Memory ran out, or a thread could not be started.
pub const MEMORY: u8 = 4;
