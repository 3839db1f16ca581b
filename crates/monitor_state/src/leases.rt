//! Laws of the leases: one is free with no own command, and they go back in their order.

ghost use Rattle.std.specs.Prelude.{◌<◌};
ghost use Rattle.mon_pool.specs.Region.{AreOf, all_given, buffers_in, out_of};
ghost use Rattle.port_lease.specs.declared.monitor_side.MonitorSide.{MonitorSide as SideOf};
ghost use Rattle.monitor_state.specs.declared.state.State.{State as StateOf};
ghost use Rattle.monitor_state.specs.declared.state.State.TheVariants.{Monitor};
ghost use Rattle.monitor_state.specs.declared.parts.Parts.{Parts as PartsOf};
ghost use Rattle.monitor_state.specs.Leases.{leases_in, leases_of_parts, leases_of_state};
ghost use Rattle.monitor_state.specs.Fits.{FitsParts};

/// While the monitor has the drive with no command of its own, not all buffers are out.
pub fn a_buffer_is_free()
    ensures { (side : SideOf) (p : PartsOf) → FitsParts (Monitor side) p
        → out_of p.pool < buffers_in p.pool }
{}

/// The state's lease goes back first, and then those of the parts.
pub fn leases_go_back_in_order()
    ensures state { (s : StateOf) (p : PartsOf) → AreOf (leases_in s p) p.pool
        → AreOf (leases_of_state s) p.pool }
    ensures parts { (s : StateOf) (p : PartsOf) → AreOf (leases_in s p) p.pool
        → AreOf (leases_of_parts p) (all_given (leases_of_state s) p.pool) }
{}
