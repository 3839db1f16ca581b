//! Laws: what the gate's answers mean for ranges, classes and fills. Each holds of every value, and no code runs.

ghost use Rattle.std.specs.Prelude.{◌≡◌, ◌≢◌, ◌↔◌, ◌<◌, ℕ, false};
ghost use Rattle.ata_taskfile.specs.declared.Kind.TheVariants.{Write};
ghost use Rattle.ata_taskfile.specs.declared.Request.{Request};
ghost use Rattle.fill_bitmap.specs.declared.area.Area.{Area};
ghost use Rattle.fill_bitmap.specs.Area.{IsSuitable, blocks_of};
ghost use Rattle.fill_bitmap.specs.Bitmap.{Sets, blocks_in, with_filled};
ghost use Rattle.io_interpret.specs.Class.{class_of_request, reaches_reserved};
ghost use Rattle.io_interpret.specs.declared.class.Class.TheVariants.{Local, FillFirst};
ghost use Rattle.write_gate.specs.declared.gating.Gated.TheVariants.{Fill, Pass};
ghost use Rattle.write_gate.specs.Gate.{IsLowestEmpty, gate_of};

/// The gate names a block exactly where that is the lowest empty one that the range touches.
pub fn the_gate_names_the_lowest_empty_block()
    ensures { (request : Request) (area : Area) (sets : Sets) (b : ℕ) → IsSuitable area →
        (gate_of request area sets ≡ Fill b)
        ↔ IsLowestEmpty area sets.filled request.first request.count b }
{}

/// A write that has to be filled first doesn't pass, and one below the reserved sectors passes exactly where it is
/// Local.
pub fn writes_pass_exactly_where_they_are_local()
    ensures fills { (request : Request) (area : Area) (sets : Sets) →
        class_of_request request area sets ≡ FillFirst → gate_of request area sets ≢ Pass }
    ensures passes { (request : Request) (area : Area) (sets : Sets) →
        request.kind ≡ Write → reaches_reserved request area ≡ false →
        (gate_of request area sets ≡ Pass) ↔ (class_of_request request area sets ≡ Local) }
{}

/// Once the block that the gate names is filled, the gate names one above it or passes. So a write waits for each empty
/// block that it touches once, in rising order.
pub fn filled_blocks_are_named_once_and_in_order()
    ensures { (request : Request) (area : Area) (sets : Sets) (b c : ℕ) → IsSuitable area →
        blocks_in sets ≡ blocks_of area → gate_of request area sets ≡ Fill b →
        gate_of request area (with_filled b sets) ≡ Fill c → b < c }
{}
