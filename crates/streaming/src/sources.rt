//! Laws of where the sectors came from that a guest was given.

ghost use Rattle.std.specs.Prelude.{◌≡◌, ◌∷◌, ℕ, List, true, false};
ghost use Rattle.streaming.specs.Lines.{Line};
ghost use Rattle.streaming.specs.Sources.{Brings, HasCome, is_power_on, one_asks, one_reads, takes_command_in, was_asked_for, was_read};

/// What the drive has read for the guest's command it has read until the next one is taken, and a line that tells of a
/// command which reads adds what that reads.
pub fn what_was_read_stays_read()
    ensures stays { (s : ℕ) (line : Line) (lines : List Line)
        → takes_command_in line.call line.plain ≡ false → was_read s lines ≡ true
        → was_read s (line ∷ lines) ≡ true }
    ensures told { (s : ℕ) (line : Line) (lines : List Line) → one_reads s line.items ≡ true
        → was_read s (line ∷ lines) ≡ true }
{}

/// A tag that was asked for, and a frame that came for it, count until the power comes on again; and a frame counts that
/// comes for a tag which was asked for before.
pub fn what_has_come_stays()
    ensures asked { (tag : ℕ) (line : Line) (lines : List Line) → is_power_on line.call ≡ false
        → was_asked_for tag lines ≡ true → was_asked_for tag (line ∷ lines) ≡ true }
    ensures asks { (tag : ℕ) (line : Line) (lines : List Line) → one_asks tag line.items ≡ true
        → was_asked_for tag (line ∷ lines) ≡ true }
    ensures stays { (tag : ℕ) (line : Line) (lines : List Line) → is_power_on line.call ≡ false
        → HasCome tag lines → HasCome tag (line ∷ lines) }
    ensures comes { (tag : ℕ) (line : Line) (lines : List Line) → Brings tag line.call
        → was_asked_for tag lines ≡ true → HasCome tag (line ∷ lines) }
{}
