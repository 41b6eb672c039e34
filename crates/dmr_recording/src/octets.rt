//! Spells the frames that mean events, in version 1 of the link.

ghost use Rattle.std.specs.Prelude.{◌≡◌, ◌<◌, None};
ghost use Rattle.dmr_frames.specs.declared.frame.FrameIn.TheVariants as frame;
ghost use Rattle.dmr_frames.specs.Frames.{spelling};
ghost use Rattle.dmr_recording.specs.Events.{noise_word as word_of_noise};

use arrayvec::ArrayVec;
use dmr_bits::Word196;
use dmr_frames::LONGEST_FRAME;
use dmr_pdu::{CarrierNo, Lpcn, SlotNo};

/// Returns the HELLO of a carrier with this channel.
pub fn hello_octets(carrier: CarrierNo, lpcn: Lpcn) -> [u8; 6]
    ensures { result ≡ spelling (frame.Hello 1 carrier lpcn) }
{
    let channel = lpcn.get();
    [
        0x01,
        4,
        1,
        carrier.get() as u8,
        (channel / 256) as u8,
        (channel % 256) as u8,
    ]
}

/// Returns the RX of a word that was received on a slot.
pub fn rx_octets(slot: SlotNo, word: &Word196) -> ArrayVec<u8, LONGEST_FRAME>
    ensures octets { result.items ≡ spelling (frame.Rx None slot word.now) }
    ensures range { slot < 2 }
{
    let mut octets = ArrayVec::new();
    octets.push(0x02);
    octets.push(26);
    octets.push(slot.get() as u8);
    let Ok(()) = octets.try_extend_from_slice(&word.to_octets()) else {
        unreachable!()
    };
    octets
}

/// Returns the ACTIVE of a slot.
pub fn active_octets(slot: SlotNo) -> [u8; 3]
    ensures octets { result ≡ spelling (frame.Active slot) }
    ensures range { slot < 2 }
{
    [0x04, 1, slot.get() as u8]
}

/// Returns the POLL.
pub fn poll_octets() -> [u8; 2]
    ensures { result ≡ spelling frame.Poll }
{
    [0x03, 0]
}

/// Returns the word of noise: all its bits are 0.
pub fn noise_word() -> Word196
    ensures { result ≡ word_of_noise }
{
    Word196::zero()
}
