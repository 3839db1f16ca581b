//! Laws of the list of entries: what the calls mean for the values of one sector.

ghost use Rattle.std.specs.Prelude.{◌≡◌, ◌≢◌, ◌+◌, ◌∷◌, ◌++◌, [], ℕ, List, take, drop, slice_get, option_map};
ghost use Rattle.write_cache.specs.declared.entry.Entry.{Entry};
ghost use Rattle.write_cache.specs.Cache.{Cached, IsAt, entries_kept, newest_of, taken_at, values_of, written};

/// A written value is its sector's newest, and no other sector's.
pub fn a_written_value_leads()
    ensures own { (entry : Entry) (c : Cached) → values_of entry.sector (written entry c).entries
        ≡ entry.bytes ∷ values_of entry.sector (entries_kept c) }
    ensures others { (entry : Entry) (c : Cached) (sector : ℕ) → entry.sector ≢ sector →
        values_of sector (written entry c).entries ≡ values_of sector (entries_kept c) }
{}

/// The newest entry of a sector has the first of its values, and there is one where there is a value.
pub fn the_newest_entry_leads()
    ensures { (sector : ℕ) (entries : List Entry) →
        option_map (λ entry. entry.bytes) (newest_of sector entries)
        ≡ slice_get (values_of sector entries) 0 }
{}

/// The oldest entry has the last of its sector's values, and none of another's.
pub fn the_oldest_entry_is_last()
    ensures own { (oldest : Entry) (entries : List Entry) →
        values_of oldest.sector (oldest ∷ entries)
        ≡ values_of oldest.sector entries ++ oldest.bytes ∷ [] }
    ensures others { (oldest : Entry) (entries : List Entry) (sector : ℕ) → oldest.sector ≢ sector →
        values_of sector (oldest ∷ entries) ≡ values_of sector entries }
{}

/// Where entry k is taken, the newer values of its sector stay, and all of the others'. Its own value stood between
/// the newer and the older ones.
pub fn a_taken_entry_takes_the_older()
    ensures own { (k : ℕ) (entries : List Entry) (entry : Entry) → IsAt k entries entry →
        values_of entry.sector (taken_at k entries)
        ≡ values_of entry.sector (drop (k + 1) entries) }
    ensures others { (k : ℕ) (entries : List Entry) (entry : Entry) (sector : ℕ) →
        IsAt k entries entry → entry.sector ≢ sector →
        values_of sector (taken_at k entries) ≡ values_of sector entries }
    ensures between { (k : ℕ) (entries : List Entry) (entry : Entry) → IsAt k entries entry →
        values_of entry.sector entries ≡ values_of entry.sector (drop (k + 1) entries)
        ++ entry.bytes ∷ values_of entry.sector (take k entries) }
{}
