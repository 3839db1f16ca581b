//! Orders: which kinds of command name sectors, and an order as a device keeps it. `specs/Order.antt` says the same.

ghost use Rattle.std.specs.Prelude.{◌≡◌};
ghost use Rattle.ata_taskfile.specs.Order.{has_range, taken};

use crate::{Kind, Refused, Request, Taken};

impl Kind {
    /// A command of this kind names sectors: a first one, and how many (ATA/ATAPI-6, inputs of a command).
    pub fn has_range(self) -> bool
        ensures { result ≡ has_range self }
    {
        match self {
            Kind::Read | Kind::Write | Kind::Verify => true,
            Kind::Flush | Kind::Identify | Kind::Features => false,
        }
    }
}

impl Taken {
    /// An order as a device keeps it in hand.
    pub fn of(order: Result<Request, Refused>) -> Taken
        ensures { result ≡ taken order }
    {
        match order {
            Ok(request) => Taken::Good(request),
            Err(reason) => Taken::Bad(reason),
        }
    }

    /// What the device keeps, as an order that can be refused.
    pub fn order(self) -> Result<Request, Refused>
        ensures { taken result ≡ self }
    {
        match self {
            Taken::Good(request) => Ok(request),
            Taken::Bad(reason) => Err(reason),
        }
    }
}
