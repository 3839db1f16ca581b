//! Laws of what the client asks for: while it asks for the same, what fits goes on to fit.

ghost use Rattle.std.specs.Prelude.{◌≡◌, ◌*◌, ◌≤◌};
ghost use Rattle.ata_taskfile.specs.declared.registers.TheConstants.{SECTOR_BYTES};
ghost use Rattle.ata_taskfile.specs.Device.{Device};
ghost use Rattle.mon_pool.specs.Region.{AreOf};
ghost use Rattle.aoe_client.specs.declared.client.Heard.{Heard as HeardOf};
ghost use Rattle.aoe_client.specs.Asking.{Asking, both_ticked, heard, leases_of, next_sent};
ghost use Rattle.monitor_state.specs.declared.state.State.{State as StateOf};
ghost use Rattle.monitor_state.specs.declared.parts.Parts.{Parts as PartsOf};
ghost use Rattle.monitor_state.specs.Fits.{Fits, FitsParts};
ghost use Rattle.monitor_state.specs.SameAsks.{BothAskTheSame, HaveSameAsks};

/// While the client asks for the same, monitor and drive that fit go on to fit, in each state.
pub fn same_asks_keep_the_fit()
    ensures parts { (s : StateOf) (old new : PartsOf) → HaveSameAsks old new → FitsParts s old
        → FitsParts s new }
    ensures fits { (s : StateOf) (old new : PartsOf) (d : Device) → HaveSameAsks old new
        → Fits s old d → Fits s new d }
{}

/// The client asks for the same once a frame was heard, a tick went by or a tag was sent.
pub fn asks_stay()
    ensures heard { (what : HeardOf) (c : Asking) → BothAskTheSame c (heard what c) }
    ensures ticked { (c : Asking) → BothAskTheSame c (both_ticked c) }
    ensures sent { (c : Asking) → BothAskTheSame c (next_sent c) }
{}

/// The client's buffers are of the pool, and have room for a block.
pub fn clients_buffers_are_of_the_pool()
    ensures leases { (s : StateOf) (p : PartsOf) → FitsParts s p
        → AreOf (leases_of p.client) p.pool }
    ensures room { (s : StateOf) (p : PartsOf) → FitsParts s p
        → SECTOR_BYTES * p.client.block ≤ p.pool.room }
{}
