//! Steps of a command whose sectors the bus master moves, one a step (Bus Master IDE 1.0, data transfer).

ghost use Rattle.std.specs.Prelude.{◌≡◌, ◌+◌, ◌<◌, ◌^◌, ℕ, List, Ok, IfOk, OnOk, length, true};
ghost use Rattle.ata_taskfile.specs.Data.{moves_by_bus};
ghost use Rattle.ata_taskfile.specs.Lawful.{IsLawfulState};
ghost use Rattle.plain_drive.specs.Change.{leaves, change_moved, change_walked, change_proceeded};
ghost use Rattle.plain_drive.specs.Physical.{seen, kept_after};
ghost use Rattle.plain_drive.specs.Step.{stepped_if, proceeded, proceeds, walked, sector_given, transferred, position_after};
ghost use Rattle.drive_model.specs.CachedStore.{CallsStore, IfStoreTold, kept_of};
ghost use Rattle.drive_model.specs.Drive.{IfTold, count_of, physical_of, worked};
ghost use Rattle.drive_model.specs.Block.{block_of};

use crate::Drive;
use crate::cached_store::CachedStore;
use ata_taskfile::registers::SECTOR_BYTES;
use ata_taskfile::{Bus, Form, Phase, Request, Stepped, Taken};
use bm_dma::{GuestMemory, Moved, move_in, move_out};
use drive_store::{Store, StoreFault};

impl<S: Store> Drive<S> {
    // Moves the next sector by the running walk, waits for a walk, or ends the command where all sectors have moved.
    pub(crate) fn transfer(
        &mut self,
        order: Request,
        done: u32,
        memory: &mut GuestMemory,
    ) -> Result<Stepped, StoreFault>
        requires phase { self.old.file.phase ≡ Phase.Busy (Taken.Good order) done }
        requires moves { moves_by_bus order.form ≡ true }
        ensures called { CallsStore self.old.sectors self.new.sectors result }
        ensures size { length memory.new ≡ length memory.old }
        ensures after { let p = physical_of self.old memory.old in
            OnOk result (IfTold self.old self.new (physical_of self.new memory.new
            ≡ worked (change_proceeded order.form order done (seen p))
            (proceeded order.form order done) p)) }
        ensures answer { let p = seen (physical_of self.old memory.old) in
            IfOk result (λ stepped.
            stepped ≡ stepped_if (proceeds order.form order done p.device)) }
        ensures unmoved { result ≡ Ok Stepped.Nothing → self.new ≡ self.old }
        ensures memory_unmoved { result ≡ Ok Stepped.Nothing → memory.new ≡ memory.old }
    {
        if done >= order.count {
            self.end(order, done);
            return Ok(Stepped::Changed);
        }
        if self.bus.walk.is_none() {
            return Ok(Stepped::Nothing);
        }
        match order.form {
            Form::DmaIn => self.give_sector(order, done, memory)?,
            _ => self.take_sector(order, done, memory)?,
        }
        Ok(Stepped::Changed)
    }

    // Moves a sector of a read into memory.
    fn give_sector(
        &mut self,
        order: Request,
        done: u32,
        memory: &mut GuestMemory,
    ) -> Result<(), StoreFault>
        requires phase { self.old.file.phase ≡ Phase.Busy (Taken.Good order) done }
        requires moves { moves_by_bus order.form ≡ true }
        requires more { done < order.count }
        ensures called { CallsStore self.old.sectors self.new.sectors result }
        ensures size { length memory.new ≡ length memory.old }
        ensures after { OnOk result (IfTold self.old self.new (physical_of self.new memory.new
            ≡ worked leaves (sector_given order done) (physical_of self.old memory.old))) }
    {
        let mut sector = [0; SECTOR_BYTES];
        self.sectors.get(order.first + done as u64, &mut sector)?;
        let mut bus = self.bus;
        let moved = move_in(&mut bus, memory, &sector);
        self.put_walk(order, position_after(moved, done), bus);
        Ok(())
    }

    // Moves a sector of a write out of memory. What isn't whole reaches no sector.
    fn take_sector(
        &mut self,
        order: Request,
        done: u32,
        memory: &GuestMemory,
    ) -> Result<(), StoreFault>
        requires phase { self.old.file.phase ≡ Phase.Busy (Taken.Good order) done }
        requires moves { moves_by_bus order.form ≡ true }
        requires more { done < order.count }
        ensures called { CallsStore self.old.sectors self.new.sectors result }
        ensures after { let p = physical_of self.old memory.now in
            OnOk result (IfTold self.old self.new (physical_of self.new memory.now
            ≡ worked (change_walked order done (seen p)) (walked order done) p)) }
    {
        let mut sector = [0; SECTOR_BYTES];
        let mut bus = self.bus;
        let moved = move_out(&mut bus, memory, &mut sector);
        put_moved(&mut self.sectors, moved, order.first + done as u64, &sector)?;
        self.put_walk(order, position_after(moved, done), bus);
        Ok(())
    }

    // Puts a bus master in place that has tried a sector, and the command at this position.
    fn put_walk(&mut self, order: Request, done: u32, bus: Bus)
        requires { let file = record self.old.file { phase = Phase.Busy (Taken.Good order) done } in
            IsLawfulState file bus self.old.words (count_of self.old) }
        ensures file { self.new.file
            ≡ record self.old.file { phase = Phase.Busy (Taken.Good order) done } }
        ensures bus { self.new.bus ≡ bus }
        ensures block { block_of self.new.block self.new.words
            ≡ block_of self.old.block self.old.words }
        ensures sectors { self.new.sectors ≡ self.old.sectors }
    {
        self.bus = bus;
        self.file.phase = Phase::Busy(Taken::Good(order), done);
    }
}

// Writes a sector that the bus master moved out of memory; what isn't whole reaches no sector (own).
fn put_moved<S: Store>(
    sectors: &mut CachedStore<S>,
    moved: Moved,
    sector: u64,
    bytes: &[u8; SECTOR_BYTES],
) -> Result<(), StoreFault>
    requires { sector < (S.sectors sectors.old.store).count }
    ensures called { CallsStore sectors.old sectors.new result }
    ensures after { OnOk result (IfStoreTold sectors.old sectors.new
        (kept_of sectors.new
        ≡ kept_after (change_moved moved sector bytes.now) (kept_of sectors.old))) }
{
    match moved {
        Moved::Whole => sectors.put(sector, bytes),
        Moved::Short(_) | Moved::Outside | Moved::Waiting => Ok(()),
    }
}

// The position after a sector was tried: one further where it is whole (own).
fn position_after(moved: Moved, done: u32) -> u32
    requires { done + 1 < 2 ^ 32 }
    ensures { result ≡ position_after moved done }
{
    match moved {
        Moved::Whole => done + 1,
        Moved::Short(_) | Moved::Outside | Moved::Waiting => done,
    }
}
