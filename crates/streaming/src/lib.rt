//! The book of the deployment: the network between monitor and server over a run, and one event of the whole.
//!
//! Start with `specs/Network.antt`, what an event does to the network, as a function of schedule, report and image;
//! `specs/Lists.antt` says what the two lists hold. Then `specs/Trace.antt`, a drive that a monitor reaches,
//! `specs/Monitor.antt`, one event of the monitor, with its client in `specs/Client.antt` and its lines in
//! `specs/Told.antt`, and `specs/World.antt`, one event of the whole and a run of it. `specs/Lines.antt` says what the
//! calls of a monitor told so far, and that the command in hand was, and `specs/Sources.antt` where the sectors came
//! from that a guest was given.
//!
//! The functions are laws that show what the definitions mean: `events` has those of one event, `course` those of a
//! whole course of the network, `runs` those of a whole run, `sources` those of where sectors came from, `image` those
//! of what the server looks at, and `limits` the numbers behind them. `docs/network.md` has the same in words.
//!
//! It has no tests of its own: those of `world` and `worked_runs` try its rules over whole runs.

#![tactic(auto)]

mod course;
mod events;
mod image;
mod limits;
mod runs;
mod sources;

pub use course::{a_report_has_one_course, each_list_holds_its_own, no_list_outgrows_its_room};
pub use events::{
    a_delivered_frame_leaves_unless_it_is_kept, a_drive_alone_sends_no_request,
    a_frame_moves_no_drive, a_lost_frame_reaches_no_one, a_stray_frame_joins_no_list,
    accesses_replace_no_command, an_event_without_network_changes_nothing,
    each_request_joins_the_requests, steps_take_no_command, the_command_in_hand_was_told,
    the_servers_reply_joins_the_replies,
};
pub use image::{
    a_reply_has_two_sectors_at_most, an_empty_image_is_never_looked_at,
    only_a_served_frame_has_the_image_looked_at,
};
pub use limits::{lines_have_their_bounds, lists_have_64_places};
pub use runs::{
    a_monitors_lines_are_its_own, a_run_has_its_course, a_sector_that_is_not_named_stays,
    a_taken_frame_was_asked_for, each_due_tag_is_sent, ready_is_told_once,
    without_a_monitor_the_drive_runs_alone,
};
pub use sources::{what_has_come_stays, what_was_read_stays_read};
