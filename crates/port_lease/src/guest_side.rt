//! The guest's side.

ghost use Rattle.port_lease.specs.Quiet.{IsQuiet};

use crate::View;

/// The guest has the drive, and its accesses reach it.
///
/// It can be neither copied nor let go: `take` ends it, or `end` at a power cut.
pub struct GuestSide {
    pub(crate) view: View,
    // A walk that the drive doesn't know of has moved nothing.
    ghost quiet: { IsQuiet view.bus },
}

impl GuestSide {
    ghost use Rattle.std.specs.Prelude.{◌≡◌};
    ghost use Rattle.port_lease.specs.Sides.{view_kept};

    /// The view.
    pub fn view(&self) -> &View
        ensures { result.now ≡ view_kept self.now }
    {
        &self.view
    }

    /// Ends the side at a power cut, after which the drive is the monitor's by `power_on`. It does nothing but use the
    /// side up.
    pub fn end(self) {
        let GuestSide { view: _ } = self;
    }
}
