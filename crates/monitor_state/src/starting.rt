//! Laws of the parts at power-on.

ghost use Rattle.std.specs.Prelude.{◌≡◌, ◌<◌, ◌≤◌, ℕ, false};
ghost use Rattle.fill_bitmap.specs.declared.area.Area.{Area as AreaOf};
ghost use Rattle.fill_bitmap.specs.Area.{IsSuitable};
ghost use Rattle.monitor_state.specs.declared.setup.TheConstants.{LEAST_POOL};
ghost use Rattle.monitor_state.specs.declared.parts.Parts.{Parts as PartsOf};
ghost use Rattle.monitor_state.specs.State.{is_opened};
ghost use Rattle.monitor_state.specs.Start.{FitAtPowerOn, IsBegun};

/// Parts of which nothing is done yet fit the side that power-on gives, and opening hasn't ended.
pub fn begun_parts_fit()
    ensures fit { (area : AreaOf) (id buffers : ℕ) (p : PartsOf) → IsSuitable area
        → 0 < area.image → LEAST_POOL ≤ buffers → IsBegun area id buffers p → FitAtPowerOn p }
    ensures closed { (area : AreaOf) (id buffers : ℕ) (p : PartsOf) → 0 < area.image
        → IsBegun area id buffers p → is_opened p ≡ false }
{}
