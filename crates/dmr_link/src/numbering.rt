//! The numbers of a connection's TX frames. A TX receives its number when it is encoded.

ghost use Rattle.std.specs.Prelude.{◌≡◌, ◌+◌, ◌%◌, ◌≤◌, ◌++◌, None, is_some, option_map};
ghost use Rattle.arrayvec.specs.ArrayVec.{array_vec_len};
ghost use Rattle.dmr_link.specs.Numbering.{first_number, frame_text, next_after};

use arrayvec::ArrayVec;
use dmr_frames::{FrameOut, LONGEST_FRAME, Version, append_spelling};
use std::marker::Model;

/// The number of a connection's next TX, or none if its version of the link has no numbers. Contracts see it as that
/// optional number.
#[derive(Clone, Copy, Debug)]
pub struct Numbering {
    next: Option<u8>,
}

impl Model for Numbering {
    ghost use Rattle.std.specs.Prelude.{ℕ, Option};

    ghost Value = { Option ℕ };

    ghost view = { λ n. n.next };

    ghost inverse = { λ next. record { next = next } };
}

/// Returns the number of a connection's first TX, or none, by the version octet of its WELCOME.
fn first_number(version: u8) -> Option<u8>
    ensures { result ≡ first_number version }
{
    if Version::version_or_first(version).has_numbers() {
        Some(0)
    } else {
        None
    }
}

impl Numbering {
    /// Returns the numbering of a connection on which nothing was sent: there is no number.
    pub fn new() -> Numbering
        ensures { result ≡ None }
    {
        Numbering { next: None }
    }

    /// Appends the next frame that goes out. A TX receives its number. A WELCOME starts the numbers, if its version has
    /// them.
    pub fn append_frame<const N: usize>(&mut self, text: &mut ArrayVec<u8, N>, frame: &FrameOut)
        requires { array_vec_len text.old + LONGEST_FRAME ≤ N }
        ensures octets { text.new.items ≡ text.old.items ++ frame_text self.old frame.now }
        ensures next { self.new ≡ next_after self.old frame.now }
    {
        match frame {
            FrameOut::Welcome { version } => {
                self.next = first_number(*version);
                append_spelling(text, frame);
            }
            FrameOut::Tx { slot, word, .. } => {
                let numbered = FrameOut::Tx {
                    number: self.next,
                    slot: *slot,
                    word: *word,
                };
                self.advance();
                append_spelling(text, &numbered);
            }
            _ => append_spelling(text, frame),
        }
    }

    /// Returns whether TX are numbered.
    pub fn is_on(self) -> bool
        ensures { result ≡ is_some self }
    {
        self.next.is_some()
    }

    /// Advances the number after a TX; 0 follows 255.
    fn advance(&mut self)
        ensures { self.new ≡ option_map (λ n. (n + 1) % 256) self.old }
    {
        if let Some(number) = self.next {
            self.next = Some(number.wrapping_add(1));
        }
    }
}
