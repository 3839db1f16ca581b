//! The numbers on which the definitions of a run rest.

ghost use Rattle.std.specs.Prelude.{◌≡◌};

use aoe_frame::MOST_BYTES;
use aoe_net::MOST_FRAMES;
use drive_model::MOST_ENTRIES;
use schedule_text::{EVENT_BYTES, EVENT_WORDS, LAST_LINE, LAST_PLACE, LINE_BYTES};

/// A list of the network has room for 64 frames, and a frame for 1,060 bytes; the drive's cache has room for 64
/// entries; a line names the places 0 to 63 of such a list.
pub fn lists_have_64_places()
    ensures frames { MOST_FRAMES ≡ 64 }
    ensures bytes { MOST_BYTES ≡ 1060 }
    ensures entries { MOST_ENTRIES ≡ 64 }
    ensures places { LAST_PLACE ≡ 63 }
{}

/// A schedule's line has 4,096 bytes at most, and its number is 4,294,967,294 at most; an event moves 256 words or
/// 2,000 bytes at most.
pub fn lines_have_their_bounds()
    ensures bytes { LINE_BYTES ≡ 4096 }
    ensures number { LAST_LINE ≡ 4294967294 }
    ensures words { EVENT_WORDS ≡ 256 }
    ensures memory { EVENT_BYTES ≡ 2000 }
{}
