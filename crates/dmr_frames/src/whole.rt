//! Octets that are one frame.

ghost use Rattle.std.specs.Prelude.{◌≡◌, IfSome};
ghost use Rattle.dmr_frames.specs.declared.frame.FrameIn.{FrameIn};
ghost use Rattle.dmr_frames.specs.Frames.{IsFrame, spelling};

use crate::cutter::{Cutter, Step};
use crate::frame::FrameIn;
use crate::version::{FrameTable, Version};

/// The frame from a carrier, of this version of the link format, that has exactly these octets as its spelling. `None`
/// if there is no such frame: a part of a frame, a fault, a frame with octets after it, an RX of the other version, or
/// no octets.
pub fn whole_frame(version: Version, octets: &[u8]) -> Option<FrameIn>
    ensures found { IfSome result (λ f. IsFrame version f × (octets.now ≡ spelling f)) }
    ensures only { (f : FrameIn) → IsFrame version f → octets.now ≡ spelling f → result ≡ Some f }
{
    let [front @ .., last] = octets else {
        return None;
    };
    let mut cutter = Cutter::with_table(FrameTable::Later(version));
    for octet in front {
        let Step::Need = cutter.feed_byte(*octet) else {
            return None;
        };
    }
    match cutter.feed_byte(*last) {
        Step::Frame(frame) => Some(frame),
        _ => None,
    }
}
