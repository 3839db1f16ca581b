//! A value for each role.

ghost use Rattle.std.specs.Prelude.{◌≡◌};
ghost use Rattle.std.specs.Borrow.{sem};
ghost use Rattle.bm_host.specs.ByRole.{value_of, LendsValue};

use crate::Role;

/// A value for each role.
#[derive(Drop)]
pub(crate) struct ByRole<T> {
    pub(crate) image: T,
    pub(crate) disk: T,
    pub(crate) schedule: T,
    pub(crate) report: T,
    pub(crate) out: T,
    pub(crate) console: T,
}

impl<T> ByRole<T> {
    /// The role's value.
    pub(crate) fn get(&self, role: Role) -> &T
        ensures { result.now ≡ value_of self.now role }
    {
        match role {
            Role::Image => &self.image,
            Role::Disk => &self.disk,
            Role::Schedule => &self.schedule,
            Role::Report => &self.report,
            Role::Out => &self.out,
            Role::Console => &self.console,
        }
    }

    /// The role's value, to be changed.
    pub(crate) fn get_mut(&mut self, role: Role) -> &mut T
        ensures* writes_back { sem 𝓛 (LendsValue T.row self.entry role result) }
        ensures value { result.now ≡ value_of self.old role }
    {
        match role {
            Role::Image => &mut self.image,
            Role::Disk => &mut self.disk,
            Role::Schedule => &mut self.schedule,
            Role::Report => &mut self.report,
            Role::Out => &mut self.out,
            Role::Console => &mut self.console,
        }
    }
}
