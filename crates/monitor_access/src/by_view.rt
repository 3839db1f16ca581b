//! What the view answers.

ghost use Rattle.std.specs.Prelude.{◌≡◌, ◌≤◌, false, IfSome};
ghost use Rattle.ata_taskfile.specs.declared.Phase.TheVariants.{Busy};
ghost use Rattle.ata_taskfile.specs.declared.Taken.{Taken};
ghost use Rattle.ata_taskfile.specs.Access.{accessed};
ghost use Rattle.ata_taskfile.specs.Accesses.{Reaches};
ghost use Rattle.ata_taskfile.specs.Device.{Device};
ghost use Rattle.fill_bitmap.specs.Area.{IsSuitable, blocks_of};
ghost use Rattle.fill_bitmap.specs.Bitmap.{blocks_in};
ghost use Rattle.mon_pool.specs.Region.{IsOf};
ghost use Rattle.port_lease.specs.Sides.{view_held};
ghost use Rattle.guest_view.specs.Drive.{drive_after};
ghost use Rattle.guest_view.specs.Fits.{FitsView};
ghost use Rattle.guest_view.specs.Seen.{IsInStep, on_monitor_side};
ghost use Rattle.guest_view.specs.View.{is_reset};
ghost use Rattle.monitor_state.specs.Accessed.{IsAccessed};
ghost use Rattle.monitor_state.specs.Hand.{HasInHand};
ghost use Rattle.monitor_state.specs.Pieces.{tidied};
ghost use Rattle.monitor_state.specs.State.{end_of_piece};
ghost use Rattle.monitor_access.specs.Marks.{mark_for, mark_over};
ghost use Rattle.monitor_access.specs.Seen.{IsViews};

use ata_taskfile::{Access, Answer, Phase, Ports};
use monitor_state::Parts;
use port_lease::{MonitorSide, View};
use schedule_text::Item;

// An access on the monitor's side: its answer, and the mark of a command that the monitor refuses. `waits` says that a
// dummy read is in flight.
pub(crate) fn by_view<P: Ports>(
    side: &mut MonitorSide,
    parts: &mut Parts,
    ports: &mut P,
    waits: bool,
    access: &Access,
) -> (Answer, Option<Item>)
    requires suitable { IsSuitable parts.old.area }
    requires blocks { blocks_in parts.old.bitmap ≡ blocks_of parts.old.area }
    requires lease { IfSome parts.old.held (λ held. IsOf held.lease parts.old.pool) }
    requires end { IfSome parts.old.held (λ held. end_of_piece held ≤ parts.old.area.sectors) }
    requires view { FitsView (view_held side.old) parts.old.area.sectors }
    requires in_hand { HasInHand (view_held side.old).file.phase (view_held side.old) parts.old }
    requires step { IsInStep waits (view_held side.old) (P.device ports.old) }
    requires no_reset { is_reset access.now ≡ false }
    ensures answered { IsViews (view_held side.old) parts.old (P.device ports.old) access.now
        result.0 }
    ensures seen { (g : Device) → g.sectors ≡ parts.old.area.sectors
        → accessed access.now (on_monitor_side (view_held side.old) (P.device ports.old) g)
        ≡ on_monitor_side (view_held side.new) (P.device ports.new) g }
    ensures mark { result.1 ≡ mark_over (view_held side.old).file parts.old access.now }
    ensures accessed { IsAccessed access.now parts.old.area.sectors side.old side.new }
    ensures parts { parts.new ≡ tidied (view_held side.new).file.phase parts.old }
    ensures drive { P.device ports.new
        ≡ drive_after waits (view_held side.old) access.now (P.device ports.old) }
    ensures rest { P.rest ports.new ≡ P.rest ports.old }
    ensures reached { (origin : Device) → Reaches origin (P.device ports.old)
        → Reaches origin (P.device ports.new) }
{
    let takes = guest_view::takes_command(side.view(), access);
    let word = parts.word(side.view());
    let sectors = parts.area.sectors;
    let answer = guest_view::access(side, ports, waits, word, sectors, access);
    let mark = if takes {
        mark_of(parts, side.view())
    } else {
        None
    };
    parts.tidy(side.view());
    (answer, mark)
}

// The mark of the command that a view has just taken.
fn mark_of(parts: &Parts, view: &View) -> Option<Item>
    requires suitable { IsSuitable parts.now.area }
    requires blocks { blocks_in parts.now.bitmap ≡ blocks_of parts.now.area }
    ensures mark { (order : Taken) → view.now.file.phase ≡ Busy order 0
        → result ≡ mark_for order parts.now }
{
    match view.file.phase {
        Phase::Busy(order, 0) if parts.is_refused(&order) => Some(Item::Reserved),
        _ => None,
    }
}
