//! Laws of what is seen of a drive that lets older values of its sectors go, as one with a write cache does.

ghost use Rattle.std.specs.Prelude.{ℕ, List, length, replicate};
ghost use Rattle.ata_taskfile.specs.declared.Step.{Step as StepOf};
ghost use Rattle.ata_taskfile.specs.Device.{Cell};
ghost use Rattle.plain_drive.specs.Plain.{appended, all_flushed};
ghost use Rattle.plain_drive.specs.Cells.{ForgetsOld};
ghost use Rattle.plain_drive.specs.Step.{acts, stepped_if};
ghost use Rattle.plain_drive.specs.Physical.{Physical, AreEndsOf, seen, physical_step, physical_destaged, physical_cut};
ghost use Rattle.plain_drive.specs.Seen.{HasStepped, HasLetGo, HasCut};

/// Each step, destage and power cut of a physical drive is seen as one of a drive that lets older values of its
/// sectors go.
pub fn a_physical_drive_is_seen()
    ensures step { (step : StepOf) (p : Physical) →
        HasStepped step (stepped_if (acts step (seen p))) (seen p) (seen (physical_step step p)) }
    ensures destage { (n : ℕ) (p : Physical) → HasLetGo (seen p) (seen (physical_destaged n p)) }
    ensures cut { (p : Physical) →
        HasCut (seen p) (seen (physical_cut (replicate (length p.memory) 0) p)) }
{}

/// Cells hold the newest of their own values and of what they are ends of ends of; and they still do after a write to
/// both, and after a flush of both.
pub fn ends_of_cells_are_kept()
    ensures same { (cells : List Cell) → AreEndsOf cells cells }
    ensures ends { (newest newer wholes : List Cell) →
        AreEndsOf newest newer → AreEndsOf newer wholes → AreEndsOf newest wholes }
    ensures write { (s : ℕ) (value : List ℕ) (cells wholes : List Cell) → AreEndsOf cells wholes
        → AreEndsOf (appended s value cells) (appended s value wholes) }
    ensures flush { (cells wholes : List Cell) → AreEndsOf cells wholes
        → AreEndsOf (all_flushed cells) (all_flushed wholes) }
{}

/// Cells that hold the newest of others' values are as many, have the same current values, and forgot older ones alone.
pub fn ends_forget_older_values()
    ensures { (old new : List Cell) → AreEndsOf new old → ForgetsOld old new }
{}
