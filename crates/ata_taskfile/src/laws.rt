//! Laws that show what the definitions mean.

ghost use Rattle.std.specs.Prelude.{◌≡◌, ◌≤◌, ℕ, List, true, false};
ghost use Rattle.ata_taskfile.specs.declared.Access.{Access as AccessOf};
ghost use Rattle.ata_taskfile.specs.declared.Reg.{Reg as RegOf};
ghost use Rattle.ata_taskfile.specs.declared.Wrote.TheVariants.{Ignored};
ghost use Rattle.ata_taskfile.specs.declared.task_file.TaskFile.{TaskFile as FileOf};
ghost use Rattle.ata_taskfile.specs.TaskFile.{wrote, after_write};
ghost use Rattle.ata_taskfile.specs.Order.{Inputs, order_of, taken};
ghost use Rattle.ata_taskfile.specs.Access.{accessed};
ghost use Rattle.ata_taskfile.specs.Device.{Cell, Device, powered_on, line_read};
ghost use Rattle.ata_taskfile.specs.Lawful.{IsLawful, end_in, is_possible};

/// A device at power-on is lawful.
pub fn power_on_is_lawful()
    ensures { (cells : List Cell) (sectors : ℕ) → IsLawful (powered_on cells sectors) }
{}

/// Every access leaves a lawful device lawful, in every phase.
pub fn accesses_keep_lawful()
    ensures { (access : AccessOf) (d : Device) → IsLawful d → IsLawful (accessed access d) }
{}

/// No access changes a sector, or how many sectors there are: only a step of the drive does.
pub fn accesses_move_no_sector()
    ensures cells { (access : AccessOf) (d : Device) →
        (accessed access d).cells ≡ d.cells }
    ensures sectors { (access : AccessOf) (d : Device) →
        (accessed access d).sectors ≡ d.sectors }
{}

/// Where an access lets the line rise, the bus master's interrupt bit is set after it.
pub fn a_rise_sets_the_interrupt_bit()
    ensures { (access : AccessOf) (d : Device) → line_read d ≡ false
        → line_read (accessed access d) ≡ true → (accessed access d).bus.interrupt ≡ true }
{}

/// A write that is ignored changes no register and no mark.
pub fn ignored_writes_do_nothing()
    ensures { (reg : RegOf) (v : ℕ) (f : FileOf) →
        wrote reg v f ≡ Ignored → after_write reg v f ≡ f }
{}

/// The sectors of an order are all on the drive, and its kind, form and count go together.
pub fn orders_fit_the_drive()
    ensures within { (byte : ℕ) (i : Inputs) (sectors : ℕ) →
        end_in (taken (order_of byte i sectors)) ≤ sectors }
    ensures possible { (byte : ℕ) (i : Inputs) (sectors : ℕ) →
        is_possible (taken (order_of byte i sectors)) ≡ true }
{}
