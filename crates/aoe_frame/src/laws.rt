//! Laws of frames: a frame has a reading, and no other one, and a message that is written is read back.

ghost use Rattle.std.specs.Prelude.{◌≡◌, ℕ, List, Result, Ok};
ghost use Rattle.aoe_frame.specs.declared.message.Aoe.{Aoe as AoeOf};
ghost use Rattle.aoe_frame.specs.declared.message.FrameFault.{FrameFault as FaultOf};
ghost use Rattle.aoe_frame.specs.Layout.{Fits, IsArgumentOf, SaysMessage, frame_of};
ghost use Rattle.aoe_frame.specs.Reading.{IsReading};

use crate::{Frame, VERSION, parse};

/// Bytes say one message at most, of whatever version.
pub fn bytes_say_one_message()
    ensures once { (bytes : List ℕ) (a b : AoeOf) →
        SaysMessage bytes a → SaysMessage bytes b → a ≡ b }
{}

/// A frame has one reading at most: a message, or one of the faults.
#[tactic(auto, using(crate::proofs::Readings::one_reading))]
pub fn a_frame_has_one_reading()
    ensures once { (bytes : List ℕ) (a b : Result AoeOf FaultOf) →
        IsReading bytes a → IsReading bytes b → a ≡ b }
{}

/// A frame has a reading.
pub fn a_frame_has_a_reading(frame: &Frame)
    ensures { (r : Result AoeOf FaultOf) × IsReading frame.now r }
{
    // What this call answers is one.
    let _reading = parse(frame);
}

/// A message of the version that is spoken here, whose numbers fit their places, is read back as it was written.
#[tactic(auto, using(crate::proofs::Written::written_reads))]
pub fn a_written_message_is_read()
    ensures back { (m : AoeOf) → Fits m → IsArgumentOf m.header.command m.argument →
        m.header.version ≡ VERSION → IsReading (frame_of m) (Ok m) }
{}
