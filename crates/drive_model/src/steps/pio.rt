//! Steps of a command whose data moves through Data, a block at a time (ATA/ATAPI-6, PIO data-in and data-out).

ghost use Rattle.std.specs.Prelude.{◌≡◌, ◌≢◌, ◌+◌, ◌-◌, ◌<◌, ◌≤◌, ℕ, List, IfOk, OnOk, is_some, true};
ghost use Rattle.ata_taskfile.specs.TaskFile.{interrupted_in};
ghost use Rattle.ata_taskfile.specs.Data.{gives_words, takes_words};
ghost use Rattle.ata_taskfile.specs.Lawful.{IsLawfulState};
ghost use Rattle.plain_drive.specs.Words.{bytes_of};
ghost use Rattle.plain_drive.specs.Change.{leaves, writes, change_proceeded};
ghost use Rattle.plain_drive.specs.Physical.{seen};
ghost use Rattle.plain_drive.specs.Step.{offered, words_due, loaded, received, first_wanted, next_wanted};
ghost use Rattle.drive_model.specs.CachedStore.{CallsStore, device_over};
ghost use Rattle.drive_model.specs.Drive.{IfTold, count_of, physical_of, worked};
ghost use Rattle.drive_model.specs.Block.{block_of};

use crate::Drive;
use crate::cached_store::CachedStore;
use crate::identify::identity;
use crate::words::{bytes_of, words_of};
use ata_taskfile::registers::{BLOCK_WORDS, SECTOR_BYTES};
use ata_taskfile::{Form, Kind, Phase, Request, Stepped, Taken};
use drive_store::{Store, StoreFault};

impl<S: Store> Drive<S> {
    // Loads the words that are due, which wait in Data from now on.
    #[tactic(auto, using(ata_taskfile::proofs::Ends::is_due, ata_taskfile::proofs::Ends::waiting_block_lawful))]
    pub(crate) fn give_block(&mut self, order: Request, done: u32) -> Result<Stepped, StoreFault>
        requires phase { self.old.file.phase ≡ Phase.Busy (Taken.Good order) done }
        requires gives { gives_words order.form ≡ true }
        ensures called { CallsStore self.old.sectors self.new.sectors result }
        ensures after { OnOk result (IfTold self.old self.new ((memory : List ℕ) →
            physical_of self.new memory
            ≡ worked leaves (loaded order done) (physical_of self.old memory))) }
        ensures answer { IfOk result (λ stepped. stepped ≡ Stepped.Changed) }
    {
        let words = words_due(&mut self.sectors, order.kind, order.first + done as u64)?;
        self.offer(order, done, words, BLOCK_WORDS);
        Ok(Stepped::Changed)
    }

    // Wants the first block of a write, or writes the block that came.
    pub(crate) fn receive(&mut self, order: Request, done: u32) -> Result<Stepped, StoreFault>
        requires phase { self.old.file.phase ≡ Phase.Busy (Taken.Good order) done }
        requires takes { takes_words order.form ≡ true }
        ensures called { CallsStore self.old.sectors self.new.sectors result }
        ensures after { OnOk result (IfTold self.old self.new ((memory : List ℕ) →
            let p = physical_of self.old memory in physical_of self.new memory
            ≡ worked (change_proceeded Form.PioOut order done (seen p)) (received order done) p)) }
        ensures answer { IfOk result (λ stepped. stepped ≡ Stepped.Changed) }
    {
        if done == 0 {
            self.want_first(order);
        } else {
            self.write_block(order, done)?;
        }
        Ok(Stepped::Changed)
    }

    // The first block is wanted without an interrupt (ATA/ATAPI-6, PIO data-out).
    #[tactic(auto, using(plain_drive::proofs::Ends::first_wanted_lawful))]
    fn want_first(&mut self, order: Request)
        requires phase { self.old.file.phase ≡ Phase.Busy (Taken.Good order) 0 }
        requires takes { takes_words order.form ≡ true }
        ensures after { (memory : List ℕ) → physical_of self.new memory
            ≡ worked leaves (first_wanted order) (physical_of self.old memory) }
        ensures sectors { self.new.sectors ≡ self.old.sectors }
    {
        let mut file = self.file;
        file.phase = Phase::Ready(Taken::Good(order), 0, BLOCK_WORDS);
        self.put_block(file, self.block, 0);
    }

    // Writes the block that came, and wants the next one.
    #[tactic(auto, using(plain_drive::proofs::Ends::block_came, plain_drive::proofs::Ends::block_whole))]
    fn write_block(&mut self, order: Request, done: u32) -> Result<(), StoreFault>
        requires phase { self.old.file.phase ≡ Phase.Busy (Taken.Good order) done }
        requires takes { takes_words order.form ≡ true }
        requires came { done ≢ 0 }
        ensures called { CallsStore self.old.sectors self.new.sectors result }
        ensures after { OnOk result (IfTold self.old self.new ((memory : List ℕ) →
            let p = physical_of self.old memory in physical_of self.new memory
            ≡ worked (writes (order.first + (done - 1)) (bytes_of p.block))
            (next_wanted order done) p)) }
    {
        self.sectors
            .put(order.first + (done - 1) as u64, &bytes_of(self.block))?;
        self.want_next(order, done);
        Ok(())
    }

    // Wants the next block, or ends the command where there is none.
    #[tactic(auto, using(plain_drive::proofs::Ends::wanted_lawful))]
    fn want_next(&mut self, order: Request, done: u32)
        requires phase { self.old.file.phase ≡ Phase.Busy (Taken.Good order) done }
        requires takes { takes_words order.form ≡ true }
        ensures after { (memory : List ℕ) → physical_of self.new memory
            ≡ worked leaves (next_wanted order done) (physical_of self.old memory) }
        ensures sectors { self.new.sectors ≡ self.old.sectors }
    {
        if done < order.count {
            self.offer(order, done, self.block, 0);
        } else {
            self.end(order, done);
        }
    }

    // Shows so many words of a block in Data, or wants the rest of it there.
    fn offer(&mut self, order: Request, done: u32, block: [u16; 256], words: u16)
        requires room { words ≤ BLOCK_WORDS }
        requires lawful { IsLawfulState
            (interrupted_in (Phase.Ready (Taken.Good order) done BLOCK_WORDS) self.old.file)
            self.old.bus words (count_of self.old) }
        ensures after { (memory : List ℕ) → physical_of self.new memory
            ≡ worked leaves (offered order done (block_of block words))
            (physical_of self.old memory) }
        ensures sectors { self.new.sectors ≡ self.old.sectors }
    {
        let mut file = self.file;
        file.interrupt_in(Phase::Ready(Taken::Good(order), done, BLOCK_WORDS));
        self.put_block(file, block, words);
    }
}

// The words that a command gives at a sector.
fn words_due<S: Store>(
    sectors: &mut CachedStore<S>,
    kind: Kind,
    sector: u64,
) -> Result<[u16; 256], StoreFault>
    requires { sector < (S.sectors sectors.old.store).count }
    ensures called { CallsStore sectors.old sectors.new result }
    ensures cache { sectors.new.cache ≡ sectors.old.cache }
    ensures unmoved { S.sectors sectors.new.store ≡ S.sectors sectors.old.store }
    ensures words { IfOk result (λ words. is_some (S.sectors sectors.old.store).told ≡ true →
        words ≡ words_due kind sector (device_over sectors.old)) }
{
    if let Kind::Identify = kind {
        return Ok(identity(sectors.store.sectors()));
    }
    let mut bytes = [0; SECTOR_BYTES];
    sectors.get(sector, &mut bytes)?;
    Ok(words_of(&bytes))
}
