//! Texts and octets, as a terminal may show them.

use std::fmt;
use std::fmt::Write;

/// A text in which control characters are shown as `\xHH`, so that it cannot command a terminal.
#[derive(Clone, Copy)]
pub struct Printable<'a>(pub &'a str);

impl fmt::Display for Printable<'_> {
    fn fmt<W: fmt::Write>(&self, f: &mut fmt::Formatter<W>) -> fmt::Result {
        let Printable(text) = *self;
        if !has_control(text) {
            return f.write_str(text);
        }
        for letter in text.chars() {
            if letter.is_control() {
                write!(f, "\\x{:02x}", u32::from(letter))?;
            } else {
                f.write_char(letter)?;
            }
        }
        Ok(())
    }
}

/// Returns whether a text has a control character.
fn has_control(text: &str) -> bool {
    for letter in text.chars() {
        if letter.is_control() {
            return true;
        }
    }
    false
}

/// Octets in hexadecimal digits.
#[derive(Clone, Copy)]
pub struct Digits<'a>(pub &'a [u8]);

impl fmt::Display for Digits<'_> {
    fn fmt<W: fmt::Write>(&self, f: &mut fmt::Formatter<W>) -> fmt::Result {
        for octet in self.0 {
            write!(f, "{octet:02X}")?;
        }
        Ok(())
    }
}
