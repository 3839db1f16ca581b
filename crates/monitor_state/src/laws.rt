//! Laws of what fits: what the guest's accesses and the drive's steps keep, and what follows from it.

ghost use Rattle.std.specs.Prelude.{◌≡◌, ◌≤◌, ℕ, true, false, IfSome, List};
ghost use Rattle.ata_taskfile.specs.declared.Access.{Access as AccessOf};
ghost use Rattle.ata_taskfile.specs.declared.Step.{Step as StepOf};
ghost use Rattle.ata_taskfile.specs.declared.Stepped.{Stepped as SteppedOf};
ghost use Rattle.ata_taskfile.specs.declared.registers.TheConstants.{BSY};
ghost use Rattle.ata_taskfile.specs.TaskFile.{has_bit, is_at_work, status};
ghost use Rattle.ata_taskfile.specs.Device.{Cell, Device, powered_on};
ghost use Rattle.ata_taskfile.specs.Lawful.{IsLawful};
ghost use Rattle.plain_drive.specs.Plain.{Plain};
ghost use Rattle.plain_drive.specs.Seen.{HasCut, HasLetGo, HasStepped};
ghost use Rattle.mon_pool.specs.Region.{IsOf};
ghost use Rattle.port_lease.specs.declared.monitor_side.MonitorSide.{MonitorSide as SideOf};
ghost use Rattle.port_lease.specs.Free.{is_free};
ghost use Rattle.port_lease.specs.Sides.{view_held};
ghost use Rattle.own_pio.specs.declared.own.Own.{Own as OwnOf};
ghost use Rattle.dummy_read.specs.declared.dummy.Dummy.{Dummy as DummyOf};
ghost use Rattle.guest_view.specs.Drive.{drive_after};
ghost use Rattle.guest_view.specs.Seen.{IsInStep};
ghost use Rattle.guest_view.specs.View.{is_reset};
ghost use Rattle.monitor_state.specs.declared.state.State.{State as StateOf};
ghost use Rattle.monitor_state.specs.declared.state.State.TheVariants.{Monitor, Running, Raising};
ghost use Rattle.monitor_state.specs.declared.state.Purpose.{Purpose as PurposeOf};
ghost use Rattle.monitor_state.specs.declared.state.Plan.{Plan as PlanOf};
ghost use Rattle.monitor_state.specs.declared.parts.Parts.{Parts as PartsOf};
ghost use Rattle.monitor_state.specs.State.{end_of_piece, is_opened};
ghost use Rattle.monitor_state.specs.Pieces.{tidied};
ghost use Rattle.monitor_state.specs.Fits.{Fits, FitsDevice, FitsParts, IsBetweenEvents};
ghost use Rattle.monitor_state.specs.Start.{IsSideAtPowerOn};
ghost use Rattle.monitor_state.specs.Accessed.{IsAccessed};

/// On the monitor's side an access of the guest that begins no reset keeps the parts fit, once what the view's phase
/// says is let go.
pub fn accesses_keep_the_parts()
    ensures monitor { (a : AccessOf) (old new : SideOf) (p : PartsOf) → is_reset a ≡ false
        → IsAccessed a p.area.sectors old new → FitsParts (Monitor old) p
        → FitsParts (Monitor new) (tidied (view_held new).file.phase p) }
    ensures running { (a : AccessOf) (old new : SideOf) (own : OwnOf) (why : PurposeOf)
        (p : PartsOf) → is_reset a ≡ false → IsAccessed a p.area.sectors old new
        → FitsParts (Running old own why) p
        → FitsParts (Running new own why) (tidied (view_held new).file.phase p) }
    ensures raising { (a : AccessOf) (old new : SideOf) (dummy : DummyOf) (planned : PlanOf)
        (p : PartsOf) → is_reset a ≡ false → IsAccessed a p.area.sectors old new
        → FitsParts (Raising old dummy planned) p
        → FitsParts (Raising new dummy planned) (tidied (view_held new).file.phase p) }
{}

/// On the monitor's side an access of the guest that begins no reset keeps state, parts and drive fit, once what the
/// view's phase says is let go, and a dummy read at work.
pub fn accesses_keep_the_fit()
    ensures monitor { (a : AccessOf) (old new : SideOf) (p : PartsOf) (d : Device) →
        is_reset a ≡ false → IsAccessed a p.area.sectors old new → Fits (Monitor old) p d
        → Fits (Monitor new) (tidied (view_held new).file.phase p)
        (drive_after false (view_held old) a d) }
    ensures running { (a : AccessOf) (old new : SideOf) (own : OwnOf) (why : PurposeOf)
        (p : PartsOf) (d : Device) → is_reset a ≡ false
        → IsAccessed a p.area.sectors old new → Fits (Running old own why) p d
        → Fits (Running new own why) (tidied (view_held new).file.phase p)
        (drive_after false (view_held old) a d) }
    ensures raising { (a : AccessOf) (old new : SideOf) (dummy : DummyOf) (planned : PlanOf)
        (p : PartsOf) (d : Device) → is_reset a ≡ false
        → IsAccessed a p.area.sectors old new → Fits (Raising old dummy planned) p d
        → Fits (Raising new dummy planned) (tidied (view_held new).file.phase p)
        (drive_after true (view_held old) a d) }
    ensures between { (a : AccessOf) (old new : SideOf) (dummy : DummyOf) (planned : PlanOf)
        (d : Device) → is_reset a ≡ false → IsBetweenEvents (Raising old dummy planned) d
        → IsBetweenEvents (Raising new dummy planned) (drive_after true (view_held old) a d) }
{}

/// A held piece has its bytes in a buffer of the pool, and its sectors are the disk's.
pub fn held_pieces_are_of_the_parts()
    ensures lease { (s : StateOf) (p : PartsOf) → FitsParts s p
        → IfSome p.held (λ held. IsOf held.lease p.pool) }
    ensures end { (s : StateOf) (p : PartsOf) → FitsParts s p
        → IfSome p.held (λ held. end_of_piece held ≤ p.area.sectors) }
{}

/// Every step of the drive, good or failing, and every destage keep what fits.
pub fn steps_keep_the_fit()
    ensures stepped { (s : StateOf) (p : PartsOf) (step : StepOf) (answer : SteppedOf)
        (old new : Plain) → IsLawful old.device → Fits s p old.device
        → HasStepped step answer old new → Fits s p new.device }
    ensures let_go { (s : StateOf) (p : PartsOf) (old new : Plain) → Fits s p old.device
        → HasLetGo old new → Fits s p new.device }
{}

/// A drive at power-on fits the monitor's side at power-on, until opening has ended; so does one after a power cut.
pub fn a_drive_at_power_on_fits()
    ensures begun { (side : SideOf) (p : PartsOf) (cells : List Cell) (sectors : ℕ) →
        IsSideAtPowerOn side → is_opened p ≡ false
        → FitsDevice (Monitor side) p (powered_on cells sectors) }
    ensures cut { (side : SideOf) (p : PartsOf) (old new : Plain) → IsSideAtPowerOn side
        → is_opened p ≡ false → HasCut old new → FitsDevice (Monitor side) p new.device }
{}

/// View and drive are in step on the monitor's side, as an access there wants it: an own command's drive waits for
/// nothing of the guest's, and a dummy read's that is at work waits for the guest's nIEN.
pub fn views_are_in_step()
    ensures monitor { (side : SideOf) (p : PartsOf) (d : Device) →
        FitsDevice (Monitor side) p d → IsInStep false (view_held side) d }
    ensures running { (side : SideOf) (own : OwnOf) (why : PurposeOf) (p : PartsOf)
        (d : Device) → FitsParts (Running side own why) p → FitsDevice (Running side own why) p d
        → IsInStep false (view_held side) d }
    ensures raising { (side : SideOf) (dummy : DummyOf) (planned : PlanOf) (p : PartsOf)
        (d : Device) → FitsParts (Raising side dummy planned) p
        → FitsDevice (Raising side dummy planned) p d → is_at_work d.file.phase ≡ true
        → IsInStep true (view_held side) d }
    ensures calm { (side : SideOf) (own : OwnOf) (why : PurposeOf) (p : PartsOf) →
        FitsParts (Running side own why) p → (view_held side).file.pending ≡ false }
{}

/// Where nothing pends for the guest the drive is free for the monitor while no command of the monitor's stands: once
/// opening has ended, and before that where it shows no BSY.
pub fn a_resting_drive_is_free()
    ensures opened { (side : SideOf) (p : PartsOf) (d : Device) →
        FitsDevice (Monitor side) p d → is_opened p ≡ true
        → (view_held side).file.pending ≡ false → is_free d.file ≡ true }
    ensures unbusy { (side : SideOf) (p : PartsOf) (d : Device) →
        FitsDevice (Monitor side) p d → has_bit BSY (status d.file) ≡ false
        → (view_held side).file.pending ≡ false → is_free d.file ≡ true }
{}
