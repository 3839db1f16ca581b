//! A guest's read of sectors that aren't on the disk yet: what the monitor does next for it, and how it serves a piece
//! of it whose bytes it holds.
//!
//! Start with `Redirect::next`, which decides and reaches no device, then `word_in_piece` and `scatter` for the two
//! ways in which the guest gets a piece. `specs/Next.antt` has the rules by which the next work is chosen, a row a line,
//! `specs/Meaning.antt` what each answer tells of the read, `specs/Piece.antt` the bytes of a sector among those of a
//! piece, and `specs/Scatter.antt` which transfer a piece moves by. `docs/monitor.md` has the same as tables.
//!
//! The tests are in `src/tests.rt`.

#![tactic(auto)]

mod next;
mod piece;
mod redirect;
mod scattering;
#[cfg(test)]
mod tests;

pub use next::Next;
pub use piece::{piece_bytes, word_in_piece};
pub use redirect::Redirect;
pub use scattering::scatter;
