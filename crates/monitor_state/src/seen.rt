//! Laws of what the guest sees, whoever has the drive.

ghost use Rattle.std.specs.Prelude.{◌≡◌, ℕ, false, List};
ghost use Rattle.ata_taskfile.specs.declared.Step.{Step as StepOf};
ghost use Rattle.ata_taskfile.specs.declared.Stepped.{Stepped as SteppedOf};
ghost use Rattle.ata_taskfile.specs.Device.{Device};
ghost use Rattle.plain_drive.specs.Plain.{Plain};
ghost use Rattle.plain_drive.specs.Seen.{HasLetGo, HasStepped};
ghost use Rattle.port_lease.specs.declared.monitor_side.MonitorSide.{MonitorSide as SideOf};
ghost use Rattle.own_pio.specs.declared.own.Own.{Own as OwnOf};
ghost use Rattle.monitor_state.specs.declared.state.State.{State as StateOf};
ghost use Rattle.monitor_state.specs.declared.state.State.TheVariants.{Monitor, Running};
ghost use Rattle.monitor_state.specs.declared.state.Purpose.{Purpose as PurposeOf};
ghost use Rattle.monitor_state.specs.declared.parts.Parts.{Parts as PartsOf};
ghost use Rattle.monitor_state.specs.Fits.{Fits};
ghost use Rattle.monitor_state.specs.Seen.{Shows, refuses};
ghost use Rattle.monitor_state.specs.Sectors.{SectorsAgree};

/// The guest sees nothing of a destage: the plain drive that it sees stays the one that it sees.
pub fn destages_keep_what_is_seen()
    ensures { (s : StateOf) (p : PartsOf) (old new q : Plain) → Shows s p old.device old.memory q
        → HasLetGo old new → Shows s p new.device new.memory q }
{}

/// Nor does it see a step of the drive, good or failing, while the monitor has the drive: neither with no command of
/// the monitor's, where at most the drive's own reset ends, nor while an own one runs. Of a dummy read it sees more:
/// the step raises the interrupt.
pub fn unseen_steps_keep_what_is_seen()
    ensures monitor { (side : SideOf) (p : PartsOf) (step : StepOf) (answer : SteppedOf)
        (old new q : Plain) → Fits (Monitor side) p old.device → HasStepped step answer old new
        → Shows (Monitor side) p old.device old.memory q
        → Shows (Monitor side) p new.device new.memory q }
    ensures running { (side : SideOf) (own : OwnOf) (why : PurposeOf) (p : PartsOf)
        (step : StepOf) (answer : SteppedOf) (old new q : Plain) →
        Fits (Running side own why) p old.device → HasStepped step answer old new
        → Shows (Running side own why) p old.device old.memory q
        → Shows (Running side own why) p new.device new.memory q }
{}

/// Where state, parts and drive fit, and the monitor refuses no command that it has in hand, there is a plain drive
/// that the guest sees, with the sectors that the guest gets.
pub fn a_plain_drive_can_be_seen()
    ensures { (s : StateOf) (p : PartsOf) (d : Device) (memory : List ℕ) → Fits s p d
        → refuses s p ≡ false → (q : Plain) × Shows s p d memory q × SectorsAgree s p d q }
{}
