//! Own commands, and how they end.

ghost use Rattle.std.specs.Prelude.{◌≡◌, ◌<◌, ◌≤◌, ◌*◌, ℕ, true, false, List, Some, None, IfSome, if◌then◌else◌};
ghost use Rattle.ata_taskfile.specs.Device.{Cell, Device};
ghost use Rattle.ata_taskfile.specs.Accesses.{Reaches};
ghost use Rattle.ata_taskfile.specs.Sectors.{IsSector};
ghost use Rattle.ata_taskfile.specs.declared.registers.TheConstants.{SECTOR_BYTES};
ghost use Rattle.fill_store.specs.Opening.{bytes_to_open, jobs_of_opening, next_in_opening};
ghost use Rattle.fill_store.specs.OpeningCells.{MadeByOpening, Opens};
ghost use Rattle.fill_store.specs.Sectors.{IsOnKept, buffer_with};
ghost use Rattle.own_pio.specs.declared.job.OwnJob.{OwnJob as JobOf};
ghost use Rattle.own_pio.specs.Job.{command_of, count_of, job_order};
ghost use Rattle.monitor_state.specs.State.{is_opened};
ghost use Rattle.monitor_state.specs.Buffered.{KeepsBuffers};
ghost use Rattle.monitor_state.specs.Requests.{KeepsRequests};
ghost use Rattle.monitor_state.specs.Sourced.{KeepsSources};
ghost use Rattle.monitor_state.specs.Fits.{Fits, FitsArea};
ghost use Rattle.monitor_state.specs.GoesOn.{GoesOn};
ghost use Rattle.monitor_state.specs.Overlaid.{OpeningGoesOn};
ghost use Rattle.schedule_text.specs.Taken.{command_item};
ghost use Rattle.streaming.specs.Monitor.{item_of};
ghost use Rattle.monitor_turn.specs.Opening.{OpeningFalls, OpeningHolds};
ghost use Rattle.monitor_turn.specs.Turned.{HasTurned};
ghost use Rattle.monitor_turn.specs.Work.{is_on_disk};

use ata_taskfile::registers::{
    BSY, FLUSH_CACHE, READ_SECTORS, SECTOR_BYTES, WRITE_SECTORS, has_bit,
};
use ata_taskfile::{Ports, Reg};
use mon_pool::{Lease, a_pool_is_whole};
use monitor_state::{HeldPiece, Parts, Purpose, State};
use own_pio::{Own, OwnJob, Poll};
use port_lease::MonitorSide;
use schedule_text::Item;

/// The command of an own job, as the report tells it.
pub(crate) fn job_item(job: OwnJob) -> Item
    ensures item { (sectors : ℕ) → is_on_disk job sectors ≡ true
        → result ≡ command_item (command_of job) (job_order job sectors) }
{
    match job {
        OwnJob::Read(first, count) => Item::Command(READ_SECTORS, first, count),
        OwnJob::Write(first, count) => Item::Command(WRITE_SECTORS, first, count),
        OwnJob::Flush => Item::Command(FLUSH_CACHE, 0, 0),
    }
}

/// An own command is polled once. The buffers go on to hold what the plain drive has there.
pub(crate) fn polled<P: Ports>(
    side: MonitorSide,
    own: Own,
    purpose: Purpose,
    parts: &mut Parts,
    ports: &mut P,
) -> (State, Option<Item>)
    requires fits { Fits (State.Running side own purpose) parts.old (P.device ports.old) }
    ensures turned { HasTurned parts.old (P.device ports.old)
        result.0 result.1 parts.new (P.device ports.new) }
    ensures shown { (memory : List ℕ) → GoesOn (State.Running side own purpose)
        parts.old (P.device ports.old) memory
        (item_of result.1) result.0 parts.new (P.device ports.new) memory }
    ensures client { parts.new.client ≡ parts.old.client }
    ensures progress { OpeningFalls (State.Running side own purpose)
        parts.old (P.device ports.old) result.0 parts.new (P.device ports.new) }
    ensures holds { OpeningHolds (State.Running side own purpose)
        parts.old (P.device ports.old) result.0 parts.new (P.device ports.new) }
    ensures opening { OpeningGoesOn (State.Running side own purpose)
        parts.old (P.device ports.old) result.0 parts.new (P.device ports.new) }
    ensures buffers { KeepsBuffers (State.Running side own purpose)
        parts.old (P.device ports.old) result.0 parts.new (P.device ports.new) }
    ensures sources { KeepsSources (State.Running side own purpose) parts.old (P.device ports.old)
        result.1 result.0 parts.new (P.device ports.new) }
    ensures requests { KeepsRequests (State.Running side own purpose) parts.old result.0 parts.new }
    ensures rest { P.rest ports.new ≡ P.rest ports.old }
    ensures reached { (origin : Device) → Reaches origin (P.device ports.old)
        → Reaches origin (P.device ports.new) }
{
    match purpose {
        Purpose::Opening => polled_opening(side, own, parts, ports),
        Purpose::Piece(first, count, lease) => {
            polled_piece(side, own, first, count, lease, parts, ports)
        }
    }
}

fn polled_opening<P: Ports>(
    mut side: MonitorSide,
    mut own: Own,
    parts: &mut Parts,
    ports: &mut P,
) -> (State, Option<Item>)
    requires fits { Fits (State.Running side own Purpose.Opening)
        parts.old (P.device ports.old) }
    ensures turned { HasTurned parts.old (P.device ports.old)
        result.0 result.1 parts.new (P.device ports.new) }
    ensures shown { (memory : List ℕ) → GoesOn (State.Running side own Purpose.Opening)
        parts.old (P.device ports.old) memory
        (item_of result.1) result.0 parts.new (P.device ports.new) memory }
    ensures client { parts.new.client ≡ parts.old.client }
    ensures progress { OpeningFalls (State.Running side own Purpose.Opening)
        parts.old (P.device ports.old) result.0 parts.new (P.device ports.new) }
    ensures holds { OpeningHolds (State.Running side own Purpose.Opening)
        parts.old (P.device ports.old) result.0 parts.new (P.device ports.new) }
    ensures opening { OpeningGoesOn (State.Running side own Purpose.Opening)
        parts.old (P.device ports.old) result.0 parts.new (P.device ports.new) }
    ensures buffers { KeepsBuffers (State.Running side own Purpose.Opening)
        parts.old (P.device ports.old) result.0 parts.new (P.device ports.new) }
    ensures sources { KeepsSources (State.Running side own Purpose.Opening)
        parts.old (P.device ports.old)
        result.1 result.0 parts.new (P.device ports.new) }
    ensures requests { KeepsRequests (State.Running side own Purpose.Opening)
        parts.old result.0 parts.new }
    ensures rest { P.rest ports.new ≡ P.rest ports.old }
    ensures reached { (origin : Device) → Reaches origin (P.device ports.old)
        → Reaches origin (P.device ports.new) }
{
    sector_is_whole(&parts.sector);
    let end = opening_bytes(parts);
    match own.poll(&mut side, ports, &mut parts.sector[..end]) {
        Poll::Waiting | Poll::Moved => (State::Running(side, own, Purpose::Opening), None),
        Poll::Done => {
            sector_is_whole(&parts.sector);
            (State::Monitor(side), opening_told(true, parts))
        }
        Poll::Failed => (State::Monitor(side), opening_told(false, parts)),
    }
}

// What stands in the monitor's sector is the value of one.
fn sector_is_whole(sector: &[u8; SECTOR_BYTES])
    ensures { IsSector sector.now }
{
    let _first = sector.first();
}

// How many bytes the job has whose command stands.
fn opening_bytes(parts: &Parts) -> usize
    ensures bytes { (job : JobOf) → next_in_opening parts.now.opening ≡ Some job
        → result ≡ SECTOR_BYTES * count_of job }
    ensures most { result ≤ SECTOR_BYTES }
    ensures kept { IfSome (next_in_opening parts.now.opening) (IsOnKept parts.now.opening.area) }
{
    match parts.opening.next() {
        Some(OwnJob::Read(..) | OwnJob::Write(..)) => SECTOR_BYTES,
        Some(OwnJob::Flush) | None => 0,
    }
}

// The opening's command has ended, well or not.
fn opening_told(ok: bool, parts: &mut Parts) -> Option<Item>
    requires area { FitsArea parts.old }
    requires stands { is_opened parts.old ≡ false }
    ensures area { FitsArea parts.new }
    ensures told { result ≡ (if is_opened parts.new then Some Item.Ready else None) }
    ensures others { parts.new ≡ record parts.old {
      opening = parts.new.opening;
      bitmap = parts.new.bitmap;
      sector = parts.new.sector;
    } }
    ensures lowered { ok ≡ true
        → jobs_of_opening parts.new.opening < jobs_of_opening parts.old.opening }
    ensures failed { ok ≡ false → parts.new.opening ≡ parts.old.opening }
    ensures opens { (disk : List (List ℕ)) (old new : List Cell) →
        Opens disk parts.old.opening parts.old.bitmap old
        → MadeByOpening ok parts.old.opening parts.old.sector old new
        → Opens disk parts.new.opening parts.new.bitmap new }
    ensures buffer { parts.new.sector
        ≡ buffer_with (bytes_to_open parts.new.opening) parts.old.sector }
{
    let Some(_job) = parts.opening.next() else {
        return None;
    };
    parts
        .opening
        .ended(ok, &mut parts.bitmap, &mut parts.sector);
    if parts.is_opened() {
        return Some(Item::Ready);
    }
    None
}

fn polled_piece<P: Ports>(
    mut side: MonitorSide,
    mut own: Own,
    first: u64,
    count: u32,
    mut lease: Lease,
    parts: &mut Parts,
    ports: &mut P,
) -> (State, Option<Item>)
    requires fits { Fits (State.Running side own (Purpose.Piece first count lease))
        parts.old (P.device ports.old) }
    ensures turned { HasTurned parts.old (P.device ports.old)
        result.0 result.1 parts.new (P.device ports.new) }
    ensures shown { (memory : List ℕ) →
        GoesOn (State.Running side own (Purpose.Piece first count lease))
        parts.old (P.device ports.old) memory
        (item_of result.1) result.0 parts.new (P.device ports.new) memory }
    ensures client { parts.new.client ≡ parts.old.client }
    ensures opened { is_opened parts.old ≡ true }
    ensures buffers { KeepsBuffers (State.Running side own (Purpose.Piece first count lease))
        parts.old (P.device ports.old) result.0 parts.new (P.device ports.new) }
    ensures sources { KeepsSources (State.Running side own (Purpose.Piece first count lease))
        parts.old (P.device ports.old)
        result.1 result.0 parts.new (P.device ports.new) }
    ensures requests { KeepsRequests (State.Running side own (Purpose.Piece first count lease))
        parts.old result.0 parts.new }
    ensures rest { P.rest ports.new ≡ P.rest ports.old }
    ensures reached { (origin : Device) → Reaches origin (P.device ports.old)
        → Reaches origin (P.device ports.new) }
{
    a_pool_is_whole(&parts.pool);
    let buffer = parts.pool.bytes_mut(&mut lease);
    let (bytes, _rest) = buffer.split_at_mut(SECTOR_BYTES * count as usize);
    match own.poll(&mut side, ports, bytes) {
        Poll::Waiting | Poll::Moved => {
            let purpose = Purpose::Piece(first, count, lease);
            (State::Running(side, own, purpose), None)
        }
        Poll::Done => {
            parts.hold(HeldPiece {
                first,
                count,
                base: first,
                lease,
                block: None,
            });
            (State::Monitor(side), None)
        }
        Poll::Failed => {
            parts.pool.give(lease);
            parts.hand.failed = true;
            (State::Monitor(side), None)
        }
    }
}

/// The opening's next command begins, unless the drive is at work. While opening hasn't ended, the sectors of every
/// such plain drive stay so.
pub(crate) fn opening_next<P: Ports>(
    mut side: MonitorSide,
    parts: &Parts,
    ports: &mut P,
) -> (State, Option<Item>)
    requires fits { Fits (State.Monitor side) parts.now (P.device ports.old) }
    requires opens { is_opened parts.now ≡ false }
    ensures turned { HasTurned parts.now (P.device ports.old)
        result.0 result.1 parts.now (P.device ports.new) }
    ensures shown { (memory : List ℕ) → GoesOn (State.Monitor side)
        parts.now (P.device ports.old) memory
        (item_of result.1) result.0 parts.now (P.device ports.new) memory }
    ensures progress { OpeningFalls (State.Monitor side) parts.now (P.device ports.old)
        result.0 parts.now (P.device ports.new) }
    ensures holds { OpeningHolds (State.Monitor side) parts.now (P.device ports.old)
        result.0 parts.now (P.device ports.new) }
    ensures opening { OpeningGoesOn (State.Monitor side) parts.now (P.device ports.old)
        result.0 parts.now (P.device ports.new) }
    ensures buffers { KeepsBuffers (State.Monitor side) parts.now (P.device ports.old)
        result.0 parts.now (P.device ports.new) }
    ensures sources { KeepsSources (State.Monitor side) parts.now (P.device ports.old)
        result.1 result.0 parts.now (P.device ports.new) }
    ensures requests { KeepsRequests (State.Monitor side) parts.now result.0 parts.now }
    ensures rest { P.rest ports.new ≡ P.rest ports.old }
    ensures reached { (origin : Device) → Reaches origin (P.device ports.old)
        → Reaches origin (P.device ports.new) }
{
    let Some(job) = parts.opening.next() else {
        return (State::Monitor(side), None);
    };
    if has_bit(BSY, ports.read8(Reg::Alternate)) {
        return (State::Monitor(side), None);
    }
    sector_is_whole(&parts.sector);
    let own = Own::begin(&mut side, ports, job);
    (
        State::Running(side, own, Purpose::Opening),
        Some(job_item(job)),
    )
}
