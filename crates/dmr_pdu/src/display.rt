//! PDUs in words: the name of a PDU, and `name=value` for each of its fields. Words are for people; the format is
//! octets.

use crate::layouts::{layout_name, show_fields};
use crate::numbers::{Kind, Reason};
use crate::pdu::Pdu;
use dmr_bits::Octets10;
use std::fmt;

/// The value of a field, as it is written in words.
#[derive(Clone, Copy)]
pub(crate) enum FieldValue {
    /// A decimal number; 0 or 1 for a flag.
    Number(u32),
    /// The kind's name, if it has one, or else its number.
    Kind(Kind),
    /// The reason's name, if it has one, or else its number.
    Reason(Reason),
}

impl fmt::Display for FieldValue {
    fn fmt<W: fmt::Write>(&self, f: &mut fmt::Formatter<W>) -> fmt::Result {
        match self {
            FieldValue::Number(number) => write!(f, "{number}"),
            FieldValue::Kind(kind) => write!(f, "{kind}"),
            FieldValue::Reason(reason) => write!(f, "{reason}"),
        }
    }
}

/// Writes ` name=value` for each field.
pub(crate) fn show_all<W: fmt::Write>(
    fields: &[(&'static str, FieldValue)],
    f: &mut fmt::Formatter<W>,
) -> fmt::Result {
    for (name, value) in fields {
        write!(f, " {name}={value}")?;
    }
    Ok(())
}

/// Writes a space and ten octets in hexadecimal digits.
pub(crate) fn show_octets<W: fmt::Write>(
    octets: &Octets10,
    f: &mut fmt::Formatter<W>,
) -> fmt::Result {
    write!(f, " ")?;
    for octet in octets {
        write!(f, "{octet:02X}")?;
    }
    Ok(())
}

impl Pdu {
    /// Returns the PDU's name in the standard, or in the profile; `OTHER` for other octets.
    pub fn name(&self) -> &'static str {
        layout_name(self)
    }
}

/// Writes the PDU's name and its fields: `C_RAND options=1 flags=0 kind=registration target=16776902 source=1001`. For
/// other octets it writes `OTHER` and the ten octets in hexadecimal digits.
impl fmt::Display for Pdu {
    fn fmt<W: fmt::Write>(&self, f: &mut fmt::Formatter<W>) -> fmt::Result {
        write!(f, "{}", self.name())?;
        show_fields(self, f)
    }
}
