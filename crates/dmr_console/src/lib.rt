//! The console: an operator's lines, the commands that they are, and the texts of the replies (this project's profile).
//!
//! A `LineCutter` takes an operator's octets one by one, so it does not matter in which pieces they come. It returns
//! each line at its LF. `parse` reads a line as a command, and `print` writes a reply as lines. Nothing here allocates
//! memory.
#![tactic(auto)]

mod laws;
mod line_cutter;
mod number_text;
mod parsing;
mod printing;
mod rows;
mod words;

pub use laws::{
    grammar_is_stated, limits_are_stated, lines_in_any_cutting, lines_precede_their_ends,
};
pub use line_cutter::{LONGEST_LINE, LineCutter, LineStep};
pub use parsing::parse;
pub use printing::{LONGEST_TEXT, line_too_long, print, unknown_command};
pub use words::number_in;
