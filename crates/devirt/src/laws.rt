//! Laws: when the monitor leaves, over every view and every drive. No code runs.

ghost use Rattle.std.specs.Prelude.{◌≡◌, ◌&&◌, ◌↔◌, ℕ, Bool, true, false, not};
ghost use Rattle.ata_taskfile.specs.declared.task_file.TaskFile.{TaskFile};
ghost use Rattle.ata_taskfile.specs.TaskFile.{status};
ghost use Rattle.port_lease.specs.declared.view.View.{View};
ghost use Rattle.port_lease.specs.Handover.{is_clean, shows_well};
ghost use Rattle.devirt.specs.declared.exit.Exit.TheVariants.{Leave, CleanUp, Stay};
ghost use Rattle.devirt.specs.Leaving.{exit_of};

/// Told to leave over what the drive shows, the monitor is removed: `remove` answers Ok exactly where the view is clean
/// and the drive shows that all is well. Once every block is stored it is told to leave exactly there.
pub fn a_monitor_that_leaves_is_removed()
    ensures removed { (view : View) (own : Bool) (drive : TaskFile) (stored : Bool) →
        exit_of view own (status drive) drive.error stored ≡ Leave
        → (is_clean view own && shows_well drive) ≡ true }
    ensures told { (view : View) (own : Bool) (drive : TaskFile) →
        (is_clean view own && shows_well drive) ≡ true
        → exit_of view own (status drive) drive.error true ≡ Leave }
{}

/// While a block isn't stored the monitor stays, and leaves the drive alone.
pub fn unstored_blocks_keep_the_monitor()
    ensures { (view : View) (own : Bool) (shown error : ℕ) →
        exit_of view own shown error false ≡ Stay }
{}

/// While an own command stands the monitor stays, and begins no other.
pub fn an_own_command_keeps_the_monitor()
    ensures { (view : View) (shown error : ℕ) (stored : Bool) →
        exit_of view true shown error stored ≡ Stay }
{}

/// A flush is begun exactly where every block is stored and `remove` would refuse for the drive alone.
pub fn a_flush_cleans_up_behind_a_clean_view()
    ensures { (view : View) (own : Bool) (drive : TaskFile) (stored : Bool) →
        (exit_of view own (status drive) drive.error stored ≡ CleanUp)
        ↔ ((stored && is_clean view own && not (shows_well drive)) ≡ true) }
{}
