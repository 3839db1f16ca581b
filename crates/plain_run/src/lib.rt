//! The book of runs: what it means that a report is one of a plain drive.
//!
//! Start with `specs/Entry.antt`, an event with what the report says of it, then `specs/Guest.antt` for what a guest
//! does in an event, `specs/Event.antt` for one event of a plain drive and `specs/Run.antt` for a whole run of a drive
//! that has no monitor. `specs/Plan.antt` says what a plan makes of a drive, and `specs/Written.antt` which sectors the
//! lines of taken commands name as written. The functions below are laws that show what the definitions mean;
//! `docs/drive.md` has the same in words.
//!
//! It has no tests of its own: those of `worked_runs` try its rules over whole runs.

#![tactic(auto)]

ghost use Rattle.std.specs.Prelude.{◌≡◌, ◌↔◌, ℕ, List, [], All, length, slice_index_or, true, false};
ghost use Rattle.ata_taskfile.specs.declared.registers.TheConstants.{SECTOR_BYTES};
ghost use Rattle.plain_drive.specs.Plain.{Plain};
ghost use Rattle.plain_drive.specs.Physical.{Physical, StandsFor, fresh, physical_at_power_on, seen};
ghost use Rattle.schedule_text.specs.declared.Event.TheVariants.{Tick, Turn};
ghost use Rattle.schedule_text.specs.declared.Item.{Item};
ghost use Rattle.plain_run.specs.Entry.{Entry, answer_items, answers_in, commands_in, entry_of, is_monitors, plan_in};
ghost use Rattle.plain_run.specs.Guest.{answer_due, is_guests};
ghost use Rattle.plain_run.specs.Event.{FollowsPlan, PlainEvent, is_cut, is_drives, may_step};
ghost use Rattle.plain_run.specs.Plan.{IsPlanned};
ghost use Rattle.plain_run.specs.Run.{DriveEvent, HasPlainRun, IsDriveRun, plan_due};
ghost use Rattle.schedule_text.specs.Taken.{commands_due};
ghost use Rattle.plain_run.specs.Written.{is_named};

/// An event that is neither the guest's nor a power cut, and has no plan, leaves the plain drive as it is: a destage,
/// a tick, a remark, and whatever happens to a frame.
pub fn other_events_change_nothing()
    ensures unmoved { (old new : Plain) (entry : Entry) → PlainEvent old entry new
        → is_guests entry.event ≡ false → is_cut entry.event ≡ false
        → may_step entry.event ≡ false → new ≡ old }
    ensures tick { (old new : Plain) (entry : Entry) → PlainEvent old entry new
        → entry.event ≡ Tick → new ≡ old }
    ensures unanswered { (old new : Plain) (entry : Entry) → PlainEvent old entry new
        → is_guests entry.event ≡ false → answers_in entry.items ≡ [] }
{}

/// A step of the drive and a turn of the monitor do to the plain drive what their plan says, and no more; a turn may
/// have any plan that the drive can follow.
pub fn a_step_or_turn_follows_its_plan()
    ensures followed { (old new : Plain) (entry : Entry) → PlainEvent old entry new
        → may_step entry.event ≡ true → FollowsPlan entry.items old new }
    ensures turn { (items : List Item) (old new : Plain) → answers_in items ≡ []
        → FollowsPlan items old new → PlainEvent old (entry_of Turn items []) new }
{}

/// What is due of a drive's event is told once each: its answer, its plan and its command are found among its items,
/// and no other of their kind is.
pub fn what_is_due_is_told_once()
    ensures answers { (old new : Physical) (entry : Entry) → DriveEvent old entry new
        → answers_in entry.items ≡ answer_items (answer_due entry.event (seen old)) }
    ensures plan { (old new : Physical) (entry : Entry) → DriveEvent old entry new
        → plan_in entry.items ≡ plan_due entry.event (seen old) }
    ensures commands { (old new : Physical) (entry : Entry) → DriveEvent old entry new
        → commands_in entry.items ≡ commands_due old.file new.file }
{}

/// Without a monitor an event that is neither the guest's nor the drive's does nothing, and the report says nothing of
/// it: a turn, a tick, a remark, and whatever happens to a frame.
pub fn a_drive_alone_takes_no_other_event()
    ensures unmoved { (old new : Physical) (entry : Entry) → DriveEvent old entry new
        → is_guests entry.event ≡ false → is_drives entry.event ≡ false → new ≡ old }
    ensures untold { (old new : Physical) (entry : Entry) → DriveEvent old entry new
        → is_guests entry.event ≡ false → is_drives entry.event ≡ false → entry.items ≡ [] }
{}

/// A drive without a monitor has neither a request nor a mark among its items.
pub fn a_drive_alone_tells_of_no_monitor()
    ensures { (old new : Physical) (entry : Entry) → DriveEvent old entry new
        → All (λ one. is_monitors one ≡ false) entry.items }
{}

/// A plan leads a plain drive to one place, where its steps end, and each of these has an effect.
pub fn a_plan_is_followed()
    ensures { (items : List Item) (old new : Plain) →
        FollowsPlan items old new ↔ IsPlanned items old new }
{}

/// Each run of a physical drive that stands for a plain one is, with the same entries, a plain run beside it: its
/// answers and plan lines are the plain drive's, which goes on after a cut with the durable sectors. It leads to a
/// plain drive for which the physical one stands then.
pub fn a_drives_run_is_a_plain_run()
    ensures { (start : Plain) (physical now : Physical) (entries : List Entry)
        → StandsFor physical start → IsDriveRun physical entries now
        → HasPlainRun start physical entries now }
{}

/// A run changes neither how many sectors a drive keeps, nor how many it says it has.
pub fn a_run_keeps_the_count_of_sectors()
    ensures kept { (start now : Physical) (entries : List Entry) → IsDriveRun start entries now
        → length now.kept.durable ≡ length start.kept.durable }
    ensures said { (start now : Physical) (entries : List Entry) → IsDriveRun start entries now
        → now.sectors ≡ start.sectors }
{}

/// A drive that begins with whole sectors, of 512 bytes each, keeps whole ones.
pub fn a_run_keeps_sectors_whole()
    ensures { (room : ℕ) (durable : List (List ℕ)) (memory : List ℕ)
        (entries : List Entry) (now : Physical)
        → All (λ sector. length sector ≡ SECTOR_BYTES) durable
        → IsDriveRun (physical_at_power_on (fresh room durable) (length durable) memory) entries now
        → All (λ sector. length sector ≡ SECTOR_BYTES) now.kept.durable }
{}

/// A sector that no command line of a write names has the durable value that it began with.
pub fn only_named_sectors_change()
    ensures { (room : ℕ) (durable : List (List ℕ)) (memory : List ℕ)
        (entries : List Entry) (now : Physical)
        → All (λ sector. length sector ≡ SECTOR_BYTES) durable
        → IsDriveRun (physical_at_power_on (fresh room durable) (length durable) memory) entries now
        → (s : ℕ) → is_named s entries ≡ false
        → slice_index_or now.kept.durable s [] ≡ slice_index_or durable s [] }
{}
