//! Laws: to the guest the monitor's side is one device, of which view and drive are parts.

ghost use Rattle.std.specs.Prelude.{◌≡◌, ◌+◌, ◌≤◌, ◌||◌, ℕ, Bool, true, false};
ghost use Rattle.ata_taskfile.specs.declared.Access.{Access as AccessOf};
ghost use Rattle.ata_taskfile.specs.declared.Phase.TheVariants.{Busy};
ghost use Rattle.ata_taskfile.specs.declared.Refused.{Refused as RefusedOf};
ghost use Rattle.ata_taskfile.specs.declared.Request.{Request as RequestOf};
ghost use Rattle.ata_taskfile.specs.declared.Step.{Step as StepOf};
ghost use Rattle.ata_taskfile.specs.declared.Step.TheVariants.{Good as GoodStep, Bad as BadStep};
ghost use Rattle.ata_taskfile.specs.declared.Taken.TheVariants.{Good, Bad};
ghost use Rattle.ata_taskfile.specs.Access.{accessed};
ghost use Rattle.ata_taskfile.specs.Data.{is_wanted, gives_words, moves_by_bus};
ghost use Rattle.ata_taskfile.specs.Device.{Device, with_bus};
ghost use Rattle.ata_taskfile.specs.Lawful.{HasTwoBytes, has_order, is_in_reset, is_just_taken, moves_nothing};
ghost use Rattle.ata_taskfile.specs.Order.{inputs, order_of, taken};
ghost use Rattle.ata_taskfile.specs.TaskFile.{holds_reset, masks_line};
ghost use Rattle.dummy_read.specs.Flight.{IsInFlight};
ghost use Rattle.own_pio.specs.Running.{IsRunning};
ghost use Rattle.own_pio.specs.declared.job.OwnJob.{OwnJob as JobOf};
ghost use Rattle.plain_drive.specs.Change.{cells_after, change_without_data};
ghost use Rattle.plain_drive.specs.Plain.{Plain, with_block, with_cells};
ghost use Rattle.plain_drive.specs.Step.{acts, step_made, words_due};
ghost use Rattle.port_lease.specs.declared.view.View.{View as ViewOf};
ghost use Rattle.port_lease.specs.View.{IsLawfulView, is_command};
ghost use Rattle.port_lease.specs.Free.{shows_rest};
ghost use Rattle.guest_view.specs.Seen.{on_monitor_side, drive_on_monitor_side, IsInStep};
ghost use Rattle.guest_view.specs.View.{view_after, takes_command, byte_written, is_reset};
ghost use Rattle.guest_view.specs.Drive.{drive_after, LeavesWork};
ghost use Rattle.guest_view.specs.Fits.{FitsView};
ghost use Rattle.guest_view.specs.Steps.{FollowsLine, after_reset, after_offer, after_refusal, after_finish, after_failure};

/// A guest's access on the monitor's side, other than one that begins a reset, is one to the device that it sees there.
/// Line and interrupt of view and drive stay in step.
pub fn accesses_are_the_guests()
    ensures same { (waits : Bool) (v : ViewOf) (d g : Device) (a : AccessOf) →
        IsInStep waits v d → is_wanted v.file.phase ≡ false → is_reset a ≡ false
        → accessed a (on_monitor_side v d g)
        ≡ on_monitor_side (view_after a g.sectors v) (drive_after waits v a d) g }
    ensures step { (waits : Bool) (v : ViewOf) (d : Device) (sectors : ℕ) (a : AccessOf) →
        IsInStep waits v d → is_reset a ≡ false
        → IsInStep waits (view_after a sectors v) (drive_after waits v a d) }
{}

/// Every access, also one that begins a reset, leaves a view that fits its drive one that does: it stays lawful.
pub fn views_stay_lawful()
    ensures { (a : AccessOf) (v : ViewOf) (sectors : ℕ) →
        FitsView v sectors → FitsView (view_after a sectors v) sectors }
{}

/// A lawful view without a command fits every drive, as at power-on and after a take.
pub fn views_without_a_command_fit()
    ensures { (v : ViewOf) (sectors : ℕ) → IsLawfulView v → HasTwoBytes v.file
        → has_order v.file.phase ≡ false → FitsView v sectors }
{}

/// The end of the view's reset is a good step of the drive that the guest sees, where the drive's line goes as the
/// view's does.
pub fn ended_resets_are_the_guests()
    ensures same { (v : ViewOf) (d e : Device) (p : Plain) → is_in_reset v.file.phase ≡ true
        → holds_reset v.file ≡ false → FollowsLine v (after_reset v) d e
        → step_made GoodStep (drive_on_monitor_side v d p)
        ≡ drive_on_monitor_side (after_reset v) e p }
    ensures acts { (v : ViewOf) (d : Device) (p : Plain) → is_in_reset v.file.phase ≡ true
        → holds_reset v.file ≡ false → acts GoodStep (drive_on_monitor_side v d p) ≡ true }
{}

/// A block that the view offers is a good step of the drive that the guest sees: its words are those that are due.
pub fn offered_blocks_are_the_guests()
    ensures same { (v : ViewOf) (order : RequestOf) (done : ℕ) (d e : Device) (p : Plain) →
        v.file.phase ≡ Busy (Good order) done → gives_words order.form ≡ true
        → FollowsLine v (after_offer order done v) d e
        → step_made GoodStep (drive_on_monitor_side v d p)
        ≡ drive_on_monitor_side (after_offer order done v) e
        (with_block (words_due order.kind (order.first + done) p.device) p) }
    ensures acts { (v : ViewOf) (order : RequestOf) (done : ℕ) (d : Device) (p : Plain) →
        v.file.phase ≡ Busy (Good order) done → gives_words order.form ≡ true
        → acts GoodStep (drive_on_monitor_side v d p) ≡ true }
{}

/// The end of a command that the view refuses is a step, good or failing, of the drive that the guest sees.
pub fn refusals_are_the_guests()
    ensures same { (step : StepOf) (v : ViewOf) (reason : RefusedOf) (done : ℕ) (d e : Device)
        (p : Plain) → v.file.phase ≡ Busy (Bad reason) done
        → FollowsLine v (after_refusal reason v) d e
        → step_made step (drive_on_monitor_side v d p)
        ≡ drive_on_monitor_side (after_refusal reason v) e p }
    ensures acts { (step : StepOf) (v : ViewOf) (reason : RefusedOf) (done : ℕ) (d : Device)
        (p : Plain) → v.file.phase ≡ Busy (Bad reason) done
        → acts step (drive_on_monitor_side v d p) ≡ true }
{}

/// The good end of a command is a good step of the drive that the guest sees: of a transfer by the bus master whose
/// sectors have all moved, and of a command without data, which may make its sectors durable.
pub fn ends_are_the_guests()
    ensures transfer { (v : ViewOf) (order : RequestOf) (done : ℕ) (d e : Device) (p : Plain) →
        v.file.phase ≡ Busy (Good order) done → moves_by_bus order.form ≡ true
        → order.count ≤ done → FollowsLine v (after_finish v) d e
        → step_made GoodStep (drive_on_monitor_side v d p)
        ≡ drive_on_monitor_side (after_finish v) e p }
    ensures transfer_acts { (v : ViewOf) (order : RequestOf) (done : ℕ) (d : Device) (p : Plain) →
        v.file.phase ≡ Busy (Good order) done → moves_by_bus order.form ≡ true
        → order.count ≤ done → acts GoodStep (drive_on_monitor_side v d p) ≡ true }
    ensures without_data { (v : ViewOf) (order : RequestOf) (done : ℕ) (d e : Device) (p : Plain) →
        v.file.phase ≡ Busy (Good order) done → moves_nothing order.form ≡ true
        → FollowsLine v (after_finish v) d e
        → step_made GoodStep (drive_on_monitor_side v d p)
        ≡ drive_on_monitor_side (after_finish v) e
        (with_cells (cells_after (change_without_data order.kind) p.device.cells) p) }
    ensures without_data_acts { (v : ViewOf) (order : RequestOf) (done : ℕ) (d : Device)
        (p : Plain) → v.file.phase ≡ Busy (Good order) done → moves_nothing order.form ≡ true
        → acts GoodStep (drive_on_monitor_side v d p) ≡ true }
{}

/// The failed end of an order is a failing step of the drive that the guest sees.
pub fn failures_are_the_guests()
    ensures same { (v : ViewOf) (order : RequestOf) (done : ℕ) (d e : Device) (p : Plain) →
        v.file.phase ≡ Busy (Good order) done → FollowsLine v (after_failure order done v) d e
        → step_made BadStep (drive_on_monitor_side v d p)
        ≡ drive_on_monitor_side (after_failure order done v) e p }
    ensures acts { (v : ViewOf) (order : RequestOf) (done : ℕ) (d : Device) (p : Plain) →
        v.file.phase ≡ Busy (Good order) done
        → acts BadStep (drive_on_monitor_side v d p) ≡ true }
{}

/// An access leaves the drive's own work as it is: of the drive it changes Device Control, whether an interrupt pends,
/// and the bus master's error and interrupt bit at most, so it shows that it rests where it did. Where nothing pends
/// for the guest, an own command runs on, of whose drive the bus master alone changes; a dummy read that wasn't
/// cancelled stays in flight; and nothing comes to pend for the guest.
pub fn accesses_leave_the_drives_work()
    ensures left { (waits : Bool) (v : ViewOf) (a : AccessOf) (d : Device) →
        LeavesWork d (drive_after waits v a d) }
    ensures rests { (waits : Bool) (v : ViewOf) (a : AccessOf) (d : Device) →
        shows_rest (drive_after waits v a d).file ≡ shows_rest d.file }
    ensures runs { (job : JobOf) (done : ℕ) (v : ViewOf) (a : AccessOf) (d : Device) →
        v.file.pending ≡ false → IsRunning job done d
        → IsRunning job done (drive_after false v a d) }
    ensures alone { (v : ViewOf) (a : AccessOf) (d : Device) → v.file.pending ≡ false
        → drive_after false v a d ≡ with_bus (drive_after false v a d).bus d }
    ensures flies { (sector : ℕ) (v : ViewOf) (a : AccessOf) (d : Device) → v.file.pending ≡ false
        → IsInFlight sector false d → IsInFlight sector false (drive_after true v a d) }
    ensures calm { (a : AccessOf) (sectors : ℕ) (v : ViewOf) → v.file.pending ≡ false
        → (view_after a sectors v).file.pending ≡ false }
{}

/// An access leaves interrupt and nIEN of view and drive alike, where they were: the one always, the other while the
/// guest's reaches the drive.
pub fn accesses_keep_what_is_alike()
    ensures pending { (waits : Bool) (v : ViewOf) (a : AccessOf) (d : Device) (sectors : ℕ) →
        is_reset a ≡ false → d.file.pending ≡ v.file.pending
        → (drive_after waits v a d).file.pending ≡ (view_after a sectors v).file.pending }
    ensures nien { (waits : Bool) (v : ViewOf) (a : AccessOf) (d : Device) (sectors : ℕ) →
        (v.file.pending || waits) ≡ true → is_reset a ≡ false
        → masks_line d.file ≡ masks_line v.file
        → masks_line (drive_after waits v a d).file ≡ masks_line (view_after a sectors v).file }
{}

/// A command that is taken is in hand at its start, with the order that its byte gives over the view's registers, and
/// no other access puts one in hand. A write of Command that isn't taken has no effect at all.
pub fn taken_commands_are_in_hand()
    ensures order { (a : AccessOf) (sectors : ℕ) (v : ViewOf) → takes_command a v.file ≡ true
        → (view_after a sectors v).file.phase
        ≡ Busy (taken (order_of (byte_written a) (inputs v.file) sectors)) 0 }
    ensures byte { (a : AccessOf) (sectors : ℕ) (v : ViewOf) → takes_command a v.file ≡ true
        → (view_after a sectors v).file.command ≡ byte_written a }
    ensures others { (a : AccessOf) (sectors : ℕ) (v : ViewOf) → takes_command a v.file ≡ false
        → is_just_taken (view_after a sectors v).file.phase ≡ true
        → (view_after a sectors v).file.phase ≡ v.file.phase }
    ensures ignored_view { (a : AccessOf) (sectors : ℕ) (v : ViewOf) → is_command a ≡ true
        → takes_command a v.file ≡ false → view_after a sectors v ≡ v }
    ensures ignored_drive { (waits : Bool) (a : AccessOf) (v : ViewOf) (d : Device) →
        is_command a ≡ true → takes_command a v.file ≡ false → drive_after waits v a d ≡ d }
{}
