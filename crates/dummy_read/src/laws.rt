//! Laws: what the drive's steps make of a dummy read between two calls.

ghost use Rattle.std.specs.Prelude.{◌≡◌, ℕ, Bool, true, false, not};
ghost use Rattle.ata_taskfile.specs.declared.Step.{Step as StepOf};
ghost use Rattle.ata_taskfile.specs.declared.Stepped.{Stepped as SteppedOf};
ghost use Rattle.ata_taskfile.specs.declared.Reg.TheVariants.{Alternate};
ghost use Rattle.ata_taskfile.specs.TaskFile.{masks_line};
ghost use Rattle.ata_taskfile.specs.Bus.{raised};
ghost use Rattle.ata_taskfile.specs.Device.{Device, after_write8, line_read};
ghost use Rattle.ata_taskfile.specs.Lawful.{IsLawful};
ghost use Rattle.plain_drive.specs.Plain.{Plain};
ghost use Rattle.plain_drive.specs.Step.{step_made};
ghost use Rattle.plain_drive.specs.Seen.{HasStepped, HasLetGo};
ghost use Rattle.own_pio.specs.Named.{nien_of};
ghost use Rattle.dummy_read.specs.Flight.{IsInFlight};

/// Every step of the drive, good or failing, leaves a dummy read in flight, and nIEN as it is; so does a destage.
pub fn steps_keep_the_flight()
    ensures stepped { (sector : ℕ) (cancelled : Bool) (step : StepOf) (answer : SteppedOf)
        (old new : Plain) → IsInFlight sector cancelled old.device
        → HasStepped step answer old new → IsInFlight sector cancelled new.device }
    ensures let_go { (sector : ℕ) (cancelled : Bool) (old new : Plain) →
        IsInFlight sector cancelled old.device → HasLetGo old new
        → IsInFlight sector cancelled new.device }
    ensures nien { (sector : ℕ) (cancelled : Bool) (step : StepOf) (p : Plain) →
        IsInFlight sector cancelled p.device
        → masks_line (step_made step p).device.file ≡ masks_line p.device.file }
{}

/// Where no interrupt pends, the next step raises it, good or failing: the line, which is low before, is high after it
/// exactly where nIEN is 0, and the bus master notes the rise. Where one was cancelled the line stays low. Once an
/// interrupt pends no step has an effect.
pub fn a_step_raises_the_interrupt()
    ensures before { (sector : ℕ) (cancelled : Bool) (p : Plain) →
        IsInFlight sector cancelled p.device → p.device.file.pending ≡ false
        → line_read p.device ≡ false }
    ensures pending { (sector : ℕ) (cancelled : Bool) (step : StepOf) (p : Plain) →
        IsInFlight sector cancelled p.device → (step_made step p).device.file.pending ≡ true }
    ensures line { (sector : ℕ) (cancelled : Bool) (step : StepOf) (p : Plain) →
        IsInFlight sector cancelled p.device
        → line_read (step_made step p).device ≡ not (masks_line p.device.file) }
    ensures cancelled { (sector : ℕ) (step : StepOf) (p : Plain) →
        IsInFlight sector true p.device → line_read (step_made step p).device ≡ false }
    ensures bus { (sector : ℕ) (cancelled : Bool) (step : StepOf) (p : Plain) →
        IsInFlight sector cancelled p.device → (step_made step p).device.bus
        ≡ raised (line_read p.device) (not (masks_line p.device.file)) p.device.bus }
    ensures once { (sector : ℕ) (cancelled : Bool) (step : StepOf) (p : Plain) →
        IsInFlight sector cancelled p.device → p.device.file.pending ≡ true
        → step_made step p ≡ p }
{}

/// No step of a dummy read changes a sector or the guest's memory.
pub fn a_step_moves_nothing()
    ensures cells { (sector : ℕ) (cancelled : Bool) (step : StepOf) (p : Plain) →
        IsInFlight sector cancelled p.device
        → (step_made step p).device.cells ≡ p.device.cells }
    ensures memory { (sector : ℕ) (cancelled : Bool) (step : StepOf) (p : Plain) →
        IsInFlight sector cancelled p.device → (step_made step p).memory ≡ p.memory }
{}

/// Until a dummy read is cancelled, the guest's nIEN may be written to the drive.
pub fn nien_may_be_written()
    ensures flies { (sector : ℕ) (masked : Bool) (d : Device) → IsInFlight sector false d
        → IsInFlight sector false (after_write8 Alternate (nien_of masked) d) }
    ensures nien { (masked : Bool) (d : Device) →
        masks_line (after_write8 Alternate (nien_of masked) d).file ≡ masked }
{}
