//! Laws of leases: what the calls mean for those that are held at once.

ghost use Rattle.std.specs.Prelude.{◌≡◌, ◌≢◌, ◌+◌, ◌<◌, ◌∷◌, ◌++◌, ℕ, IsSome, List, length, Some};
ghost use Rattle.mon_pool.specs.Region.{AreOf, HasWholeBuffers, Held, IsOf, Region, all_given, buffers_in, first_free, given, lease_of, leased, leased_bytes, out_of, with_bytes};

use crate::Pool;

/// The block of a pool is all buffers.
pub fn a_pool_is_whole(pool: &Pool)
    ensures { HasWholeBuffers pool.now }
{
    // This call's clause says it.
    let _room = pool.room();
}

/// A new lease is of the pool, each lease that was still is, and no two share a buffer.
pub fn a_new_lease_is_apart()
    ensures own { (pool : Region) (buffer : ℕ) → first_free pool ≡ Some buffer →
        IsOf (lease_of pool buffer) (leased (Some buffer) pool) }
    ensures others { (pool : Region) (buffer : ℕ) (other : Held) → first_free pool ≡ Some buffer →
        IsOf other pool → IsOf other (leased (Some buffer) pool) }
    ensures apart { (pool : Region) (buffer : ℕ) (other : Held) → first_free pool ≡ Some buffer →
        IsOf other pool → other.buffer ≢ buffer }
{}

/// A lease that is given back isn't of the pool any more, and every other lease still is.
pub fn a_given_lease_is_spent()
    ensures own { (pool : Region) (lease : Held) →
        IsOf lease pool → ¬ IsOf lease (given lease pool) }
    ensures others { (pool : Region) (lease other : Held) → other.buffer ≢ lease.buffer →
        IsOf other pool → IsOf other (given lease pool) }
{}

/// What is written through a lease is what it shows, and no other lease shows a byte of it.
pub fn bytes_are_the_holders()
    ensures own { (pool : Region) (lease : Held) (bytes : List ℕ) →
        HasWholeBuffers pool → IsOf lease pool →
        length bytes ≡ pool.room → leased_bytes lease (with_bytes lease pool bytes) ≡ bytes }
    ensures others { (pool : Region) (lease other : Held) (bytes : List ℕ) → HasWholeBuffers pool →
        IsOf lease pool → length bytes ≡ pool.room → other.buffer ≢ lease.buffer →
        leased_bytes other (with_bytes lease pool bytes) ≡ leased_bytes other pool }
    ensures leases { (leases : List Held) (pool : Region) (lease : Held) (bytes : List ℕ) →
        AreOf leases pool → AreOf leases (with_bytes lease pool bytes) }
{}

/// A new lease is of the pool together with those that are held, wherever it is named among them.
pub fn a_lease_is_added()
    ensures added { (before behind : List Held) (pool : Region) (buffer : ℕ) →
        first_free pool ≡ Some buffer → AreOf (before ++ behind) pool →
        AreOf (before ++ lease_of pool buffer ∷ behind) (leased (Some buffer) pool) }
{}

/// Leases that are held at once may be named, and so given back, in any order.
pub fn leases_have_no_order()
    ensures first { (before behind : List Held) (lease : Held) (pool : Region) →
        AreOf (before ++ lease ∷ behind) pool → AreOf (lease ∷ before ++ behind) pool }
    ensures anywhere { (before behind : List Held) (lease : Held) (pool : Region) →
        AreOf (lease ∷ before ++ behind) pool → AreOf (before ++ lease ∷ behind) pool }
{}

/// How many buffers are out: a new lease is one more, a lease that is given back one fewer, and those that are held
/// are as many. While not all are out one is free.
pub fn leases_are_counted()
    ensures out { (pool : Region) (buffer : ℕ) → first_free pool ≡ Some buffer →
        out_of (leased (Some buffer) pool) ≡ out_of pool + 1 }
    ensures back { (pool : Region) (lease : Held) → IsOf lease pool →
        out_of (given lease pool) + 1 ≡ out_of pool }
    ensures held { (leases : List Held) (pool : Region) → AreOf leases pool →
        out_of (all_given leases pool) + length leases ≡ out_of pool }
    ensures free { (pool : Region) → out_of pool < buffers_in pool → IsSome (first_free pool) }
{}
