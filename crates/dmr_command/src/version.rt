//! The program's version. The package, the manual page and the notes read it here (`ci/version` prints it).

/// The version, as `--version` prints it.
pub const VERSION: &str = "0.2.0~dev";
