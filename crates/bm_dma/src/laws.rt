//! Laws of descriptor tables.

ghost use Rattle.std.specs.Prelude.{◌≡◌, ℕ, ◌+◌, ◌<◌, ◌≤◌, ◌||◌, Bool, List, All, length, drop};
ghost use Rattle.ata_taskfile.specs.declared.bus_master.Bus.{Bus};
ghost use Rattle.ata_taskfile.specs.declared.registers.TheConstants.{SECTOR_BYTES};
ghost use Rattle.bm_dma.specs.declared.descriptor.TheConstants.{DESCRIPTOR_BYTES};
ghost use Rattle.bm_dma.specs.declared.moves.Moved.TheVariants.{Short};
ghost use Rattle.bm_dma.specs.Descriptor.{descriptor_in};
ghost use Rattle.bm_dma.specs.Run.{bad_run, run_with, run_of};
ghost use Rattle.bm_dma.specs.Move.{outcome, bus_next};

/// A run is its first descriptor with the run behind it, and none where the descriptor isn't all in memory.
pub fn runs_begin_with_a_descriptor()
    ensures first { (pointer : ℕ) (memory : List ℕ) → pointer + DESCRIPTOR_BYTES ≤ length memory →
        run_of pointer memory
        ≡ run_with (descriptor_in (drop pointer memory)) (length memory)
        (run_of (pointer + DESCRIPTOR_BYTES) memory) }
    ensures past { (pointer : ℕ) (memory : List ℕ) → length memory < pointer + DESCRIPTOR_BYTES →
        run_of pointer memory ≡ bad_run }
{}

/// Every place that a table names is in memory.
pub fn places_are_in_memory()
    ensures inside { (pointer : ℕ) (memory : List ℕ) →
        All (λ place. place < length memory) (run_of pointer memory).places }
{}

/// A short move has fewer bytes than a sector.
pub fn short_moves_are_below_a_sector()
    ensures below { (bus : Bus) (memory : List ℕ) (n : ℕ) →
        outcome bus memory ≡ Short n → n < SECTOR_BYTES }
{}

/// A walk looks neither at the error bit nor at the interrupt bit: it goes on alike whatever they are, sets the first
/// alone, and clears none.
pub fn a_walk_leaves_the_marks()
    ensures error { (memory : List ℕ) (e : Bool) (b : Bus) →
        bus_next (record b { error = e || b.error }) memory
        ≡ record (bus_next b memory) { error = e || (bus_next b memory).error } }
    ensures interrupt { (memory : List ℕ) (i : Bool) (b : Bus) →
        bus_next (record b { interrupt = i }) memory
        ≡ record (bus_next b memory) { interrupt = i } }
{}
