//! Laws of a whole run of a scene, and of a monitor's event in it.

ghost use Rattle.std.specs.Prelude.{◌≡◌, ◌≢◌, ◌≤◌, ℕ, List, [], All, length, slice_index_or, Option, Some, None, map, true, false};
ghost use Rattle.ata_taskfile.specs.declared.registers.TheConstants.{SECTOR_BYTES};
ghost use Rattle.aoe_net.specs.Wire.{Wire, nothing_sent};
ghost use Rattle.aoe_client.specs.Asking.{Asking, due_tags, next_sent};
ghost use Rattle.aoe_client.specs.Messages.{request_frame};
ghost use Rattle.plain_drive.specs.Physical.{Physical};
ghost use Rattle.schedule_text.specs.declared.Event.TheVariants.{Turn};
ghost use Rattle.schedule_text.specs.declared.Item.{Item};
ghost use Rattle.schedule_text.specs.Taken.{commands_due};
ghost use Rattle.plain_run.specs.Entry.{Entry, answers_in, commands_in, plan_in};
ghost use Rattle.plain_run.specs.Run.{IsDriveRun};
ghost use Rattle.plain_run.specs.Written.{is_named};
ghost use Rattle.streaming.specs.Network.{IsCourse, requests_in};
ghost use Rattle.streaming.specs.Client.{TakesFor, all_sent};
ghost use Rattle.streaming.specs.Told.{readies_along, tells_ready, was_asked};
ghost use Rattle.streaming.specs.Monitor.{MonitorEvent, Watched, answer_if, item_of, reads};
ghost use Rattle.streaming.specs.World.{IsMonitored, IsSceneRun, Scene, started};

/// A run's network takes the course that its entries give, over the image that it began with.
pub fn a_run_has_its_course()
    ensures course { (told : Option (List ℕ)) (start now : Scene) (entries : List Entry)
        (count : ℕ) → IsSceneRun told start entries now count → start.wire ≡ nothing_sent
        → IsCourse now.image told entries now.wire count }
    ensures image { (told : Option (List ℕ)) (start now : Scene) (entries : List Entry)
        (count : ℕ) → IsSceneRun told start entries now count → now.image ≡ start.image }
{}

/// Without a monitor a run is one of the drive alone.
pub fn without_a_monitor_the_drive_runs_alone()
    ensures { (told : Option (List ℕ)) (start now : Scene) (entries : List Entry)
        (count : ℕ) → IsSceneRun told start entries now count → start.watched ≡ None
        → IsDriveRun start.drive entries now.drive }
{}

/// A sector that no line of a write names is the one that the run began with.
pub fn a_sector_that_is_not_named_stays()
    ensures { (told : Option (List ℕ)) (block memory image : ℕ) (sectors : List (List ℕ))
        (entries : List Entry) (now : Scene) (count s : ℕ)
        → All (λ sector. length sector ≡ SECTOR_BYTES) sectors
        → IsSceneRun told (started block memory image sectors) entries now count
        → is_named s entries ≡ false
        → slice_index_or now.drive.kept.durable s [] ≡ slice_index_or sectors s [] }
{}

/// That opening has ended is told under a turn alone, and once.
pub fn ready_is_told_once()
    ensures turn { (wire : Wire) (told : Option Item) (old new : Watched) (entry : Entry)
        → MonitorEvent wire told old entry new → tells_ready told ≡ true → entry.event ≡ Turn }
    ensures once { (wire : Wire) (told : Option Item) (old new : Watched) (entry : Entry)
        → MonitorEvent wire told old entry new → old.opened ≡ true → tells_ready told ≡ false }
    ensures run { (told : Option (List ℕ)) (block memory image : ℕ) (sectors : List (List ℕ))
        (entries : List Entry) (now : Scene) (count : ℕ)
        → IsSceneRun told (started block memory image sectors) entries now count
        → readies_along entries ≤ 1 }
{}

/// Of a monitored event the answer is told where the guest reads, the lines of commands are those that the drive took,
/// the plan is what is told of one, and the requests are those of the tags that were due. A command is taken in a turn
/// alone.
pub fn a_monitors_lines_are_its_own()
    ensures answers { (wire : Wire) (told : Option Item) (old new : Watched) (entry : Entry)
        → MonitorEvent wire told old entry new
        → answers_in entry.items ≡ answer_if (reads entry.event) }
    ensures plan { (wire : Wire) (told : Option Item) (old new : Watched) (entry : Entry)
        → MonitorEvent wire told old entry new → plan_in entry.items ≡ plan_in (item_of told) }
    ensures commands { (wire : Wire) (from to : Physical) (old new : Watched) (entry : Entry)
        → IsMonitored wire from to old entry new
        → commands_in entry.items ≡ commands_due from.file to.file }
    ensures turn { (wire : Wire) (from to : Physical) (old new : Watched) (entry : Entry)
        → IsMonitored wire from to old entry new → commands_due from.file to.file ≢ []
        → entry.event ≡ Turn }
    ensures requests { (wire : Wire) (told : Option Item) (old new : Watched) (entry : Entry)
        → (event : MonitorEvent wire told old entry new)
        → requests_in entry.items ≡ map request_frame (due_tags event.due) }
{}

/// Once all that is due is sent nothing is, and it is all sent one request after the other, until nothing is due. An
/// event sends each tag that is due, so none is due between two events.
#[tactic(auto, using(crate::proofs::AllSent::sendings))]
pub fn each_due_tag_is_sent()
    ensures all { (c : Asking) → due_tags (all_sent c) ≡ [] }
    ensures next { (c : Asking) → all_sent (next_sent c) ≡ all_sent c }
    ensures none { (c : Asking) → due_tags c ≡ [] → all_sent c ≡ c }
    ensures event { (wire : Wire) (told : Option Item) (old new : Watched) (entry : Entry)
        → MonitorEvent wire told old entry new → due_tags new.asking ≡ [] }
{}

/// A run's client takes a frame for a tag alone that a line of the run asked for.
pub fn a_taken_frame_was_asked_for()
    ensures { (told : Option (List ℕ)) (block memory image : ℕ) (sectors : List (List ℕ))
        (entries : List Entry) (now : Scene) (count : ℕ)
        → IsSceneRun told (started block memory image sectors) entries now count
        → (watched : Watched) → now.watched ≡ Some watched
        → (tag : ℕ) (frame : List ℕ) → TakesFor tag frame watched.asking
        → was_asked tag entries ≡ true }
{}
