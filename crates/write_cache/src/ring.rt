//! How a ring of entries, which gives up only its ends, loses entries from its middle.

ghost use Rattle.std.specs.Prelude.{◌≡◌, ◌-◌, ◌<◌, ◌≤◌, ◌++◌, length, take, drop, slice_get};
ghost use Rattle.circular_buffer.specs.Buffer.{buffer};
ghost use Rattle.write_cache.specs.Cache.{entries_but, taken_at};

use crate::Entry;
use circular_buffer::HeapCircularBuffer;

// Takes entry `k` out, and lets go the older ones of its sector. The older ones of other sectors stand behind the
// newest until it is out.
pub(crate) fn take_out(ring: &mut HeapCircularBuffer<Entry>, k: usize) -> Option<Entry>
    ensures after { ring.new ≡ buffer (taken_at k ring.old.items) ring.old.capacity }
    ensures entry { result ≡ slice_get ring.old.items k }
{
    let sector = ring.get(k)?.sector;
    let passed = pass_older(ring, sector, k);
    let taken = ring.pop_front();
    bring_back(ring, passed);
    taken
}

// Takes the first `count` entries off the front. Those of other sectors go behind the newest, and their number is
// the answer.
fn pass_older(ring: &mut HeapCircularBuffer<Entry>, sector: u64, count: usize) -> usize
    requires { count ≤ length ring.old.items }
    ensures passed { let others = entries_but sector (take count ring.old.items) in
        ring.new ≡ buffer (drop count ring.old.items ++ others) ring.old.capacity }
    ensures number { result ≡ length (entries_but sector (take count ring.old.items)) }
{
    let mut passed = 0;
    for _i in 0..count {
        passed += pass_front(ring, sector);
    }
    passed
}

// Takes the entry off the front, where there is one. One of another sector goes behind the newest, and the answer is 1;
// else it is 0.
fn pass_front(ring: &mut HeapCircularBuffer<Entry>, sector: u64) -> usize
    ensures passed { let others = entries_but sector (take 1 ring.old.items) in
        ring.new ≡ buffer (drop 1 ring.old.items ++ others) ring.old.capacity }
    ensures number { result ≡ length (entries_but sector (take 1 ring.old.items)) }
{
    let _within = ring.len();
    let Some(entry) = ring.pop_front() else {
        return 0;
    };
    if entry.sector == sector {
        return 0;
    }
    ring.push_back(entry);
    1
}

// Brings the last `count` entries back to the front, in their order.
fn bring_back(ring: &mut HeapCircularBuffer<Entry>, count: usize)
    requires { count ≤ length ring.old.items }
    ensures { let at = length ring.old.items - count in
        ring.new ≡ buffer (drop at ring.old.items ++ take at ring.old.items) ring.old.capacity }
{
    for _i in 0..count {
        bring_last(ring);
    }
}

// Brings the last entry, where there is one, back to the front.
fn bring_last(ring: &mut HeapCircularBuffer<Entry>)
    ensures { let at = length ring.old.items - 1 in
        ring.new ≡ buffer (drop at ring.old.items ++ take at ring.old.items) ring.old.capacity }
{
    let _within = ring.len();
    if let Some(entry) = ring.pop_back() {
        ring.push_front(entry);
    }
}
