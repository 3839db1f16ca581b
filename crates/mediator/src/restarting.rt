//! The parts as the power comes on again.

ghost use Rattle.std.specs.Prelude.{◌≡◌, ◌*◌};
ghost use Rattle.fill_bitmap.specs.Area.{IsSuitable, blocks_of};
ghost use Rattle.fill_bitmap.specs.Bitmap.{blocks_in};
ghost use Rattle.ata_taskfile.specs.declared.registers.TheConstants.{SECTOR_BYTES};
ghost use Rattle.mon_pool.specs.Region.{AreOf, buffers_in, out_of};
ghost use Rattle.monitor_state.specs.Leases.{AreLeased, leases_of_parts};
ghost use Rattle.monitor_state.specs.Start.{IsBegun};

use aoe_client::Client;
use fill_store::Opening;
use monitor_state::{Hand, Parts};
use std::mem;

// Nothing is done yet: all buffers are back, and opening begins again.
#[tactic(auto, using(crate::proofs::Restart::going_back))]
pub(crate) fn restart(parts: &mut Parts)
    requires leased { AreLeased (leases_of_parts parts.old) parts.old }
    requires suitable { IsSuitable parts.old.area }
    requires blocks { blocks_in parts.old.bitmap ≡ blocks_of parts.old.area }
    requires room { parts.old.pool.room ≡ SECTOR_BYTES * parts.old.area.block }
    ensures begun { IsBegun parts.old.area parts.old.id (buffers_in parts.old.pool) parts.new }
{
    parts.let_go();
    let client = Client::new(parts.area.block);
    mem::replace(&mut parts.client, client).end(&mut parts.pool);
    parts.bitmap.clear();
    parts.opening = Opening::new(parts.area, parts.id);
    parts.hand = Hand::empty();
}
