//! The monitor's side.

ghost use Rattle.std.specs.Prelude.{◌≡◌, true, false};
ghost use Rattle.std.specs.Borrow.{sem};
ghost use Rattle.port_lease.specs.View.{IsLawfulView};
ghost use Rattle.port_lease.specs.Sides.{view_held, has_own, view_at_power_on};
ghost use Rattle.port_lease.specs.Lending.{LendsView};

use crate::View;
use ata_taskfile::{Bus, TaskFile};

/// The monitor has the drive, and the view is what the guest is to see.
///
/// It can be neither copied nor let go: `give` and `remove` end it, or `end` at a power cut.
pub struct MonitorSide {
    pub(crate) view: View,
    // An own command of the monitor's stands.
    pub(crate) own: bool,
}

/// At power-on the monitor has the drive, and the view is that of power-on.
pub fn power_on() -> MonitorSide
    ensures view { view_held result ≡ view_at_power_on }
    ensures own { has_own result ≡ false }
    ensures lawful { IsLawfulView (view_held result) }
{
    MonitorSide {
        view: View {
            file: TaskFile::power_on(),
            bus: Bus::power_on(),
        },
        own: false,
    }
}

impl MonitorSide {
    /// The view.
    pub fn view(&self) -> &View
        ensures { result.now ≡ view_held self.now }
    {
        &self.view
    }

    /// The view, to be changed. A caller leaves it lawful, since `give` and `remove` want it so.
    pub fn view_mut(&mut self) -> &mut View
        ensures* lent { sem 𝓛 (LendsView self.entry result) }
        ensures view { result.now ≡ view_held self.old }
    {
        &mut self.view
    }

    /// Whether an own command of the monitor's stands.
    pub fn own_stands(&self) -> bool
        ensures { result ≡ has_own self.now }
    {
        self.own
    }

    /// Marks that an own command begins, and changes nothing else.
    pub fn own_begins(&mut self)
        requires { has_own self.old ≡ false }
        ensures own { has_own self.new ≡ true }
        ensures view { view_held self.new ≡ view_held self.old }
    {
        self.own = true;
    }

    /// Marks that the own command has ended, and changes nothing else.
    pub fn own_ended(&mut self)
        ensures own { has_own self.new ≡ false }
        ensures view { view_held self.new ≡ view_held self.old }
    {
        self.own = false;
    }

    /// Ends the side at a power cut, after which the drive is the monitor's by `power_on`. It does nothing but use the
    /// side up.
    pub fn end(self) {
        let MonitorSide { view: _, own: _ } = self;
    }
}
