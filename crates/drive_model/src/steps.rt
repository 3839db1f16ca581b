//! What the drive does of its own, a step at a time.
//!
//! A step goes by the phase, and a good step of a command by the way in which its data moves: `pio` has the blocks in
//! Data, `transfer` the sectors that the bus master moves, and `failure` how a command fails.

ghost use Rattle.std.specs.Prelude.{◌≡◌, ℕ, List, Ok, IfOk, OnOk, length, false};
ghost use Rattle.ata_taskfile.specs.declared.Step.{Step as StepOf};
ghost use Rattle.ata_taskfile.specs.TaskFile.{refused};
ghost use Rattle.ata_taskfile.specs.Data.{moves_by_bus};
ghost use Rattle.drive_store.specs.Store.{Counted};
ghost use Rattle.plain_drive.specs.Change.{leaves, change_without_data, change_proceeded};
ghost use Rattle.plain_drive.specs.Physical.{seen, kept_after, physical_step};
ghost use Rattle.plain_drive.specs.Step.{good_step_in, acts, acts_in, stepped_if, proceeded, proceeds, ended, transferred};
ghost use Rattle.drive_model.specs.CachedStore.{CallsStore, IfStoreTold, kept_of};
ghost use Rattle.drive_model.specs.Drive.{IfTold, count_of, faults_of, physical_of, rest_of, worked};

use crate::Drive;
use crate::cached_store::CachedStore;
use ata_taskfile::{Form, Kind, Phase, Refused, Request, Step, Stepped, Taken};
use bm_dma::GuestMemory;
use drive_store::{Store, StoreFault};

mod failure;
mod pio;
mod transfer;

impl<S: Store> Drive<S> {
    /// One step of the drive, which goes well or fails: the physical drive's.
    ///
    /// `Nothing` comes exactly where the step has no effect, and then nothing changes. After `StoreFault` nothing is
    /// said of the drive but that its calls still return.
    pub fn step(&mut self, step: Step, memory: &mut GuestMemory) -> Result<Stepped, StoreFault>
        ensures cause { Counted (faults_of self.old) (faults_of self.new) result }
        ensures rest { rest_of self.new ≡ rest_of self.old }
        ensures count { count_of self.new ≡ count_of self.old }
        ensures size { length memory.new ≡ length memory.old }
        ensures after { OnOk result (IfTold self.old self.new
            (physical_of self.new memory.new
            ≡ physical_step step (physical_of self.old memory.old))) }
        ensures answer { IfOk result (λ stepped.
            stepped ≡ stepped_if (acts step (seen (physical_of self.old memory.old)))) }
        ensures unmoved { result ≡ Ok Stepped.Nothing → self.new ≡ self.old }
        ensures memory_unmoved { result ≡ Ok Stepped.Nothing → memory.new ≡ memory.old }
    {
        match step {
            Step::Good => self.good_step(memory),
            Step::Bad => Ok(self.bad_step()),
        }
    }

    // A step that goes well, by the phase.
    fn good_step(&mut self, memory: &mut GuestMemory) -> Result<Stepped, StoreFault>
        ensures called { CallsStore self.old.sectors self.new.sectors result }
        ensures size { length memory.new ≡ length memory.old }
        ensures after { OnOk result (IfTold self.old self.new
            (physical_of self.new memory.new
            ≡ physical_step Step.Good (physical_of self.old memory.old))) }
        ensures answer { IfOk result (λ stepped.
            stepped ≡ stepped_if (acts Step.Good (seen (physical_of self.old memory.old)))) }
        ensures unmoved { result ≡ Ok Stepped.Nothing → self.new ≡ self.old }
        ensures memory_unmoved { result ≡ Ok Stepped.Nothing → memory.new ≡ memory.old }
    {
        match self.file.phase {
            Phase::Reset => Ok(self.end_reset()),
            Phase::Idle | Phase::Ready(..) => Ok(Stepped::Nothing),
            Phase::Busy(Taken::Bad(reason), done) => Ok(self.refuse(reason, done)),
            Phase::Busy(Taken::Good(order), done) => self.proceed(order, done, memory),
        }
    }

    // A step that fails: it ends a command at which the drive is at work, and does nothing else.
    fn bad_step(&mut self) -> Stepped
        ensures after { (memory : List ℕ) →
            physical_of self.new memory ≡ physical_step Step.Bad (physical_of self.old memory) }
        ensures sectors { self.new.sectors ≡ self.old.sectors }
        ensures answer { (memory : List ℕ) →
            result ≡ stepped_if (acts Step.Bad (seen (physical_of self.old memory))) }
        ensures unmoved { result ≡ Stepped.Nothing → self.new ≡ self.old }
    {
        match self.file.phase {
            Phase::Reset | Phase::Idle | Phase::Ready(..) => Stepped::Nothing,
            Phase::Busy(Taken::Bad(reason), done) => self.refuse(reason, done),
            Phase::Busy(Taken::Good(order), done) => self.give_up(order, done),
        }
    }

    // Ends a reset, unless SRST is still 1.
    #[tactic(auto, using(ata_taskfile::proofs::Ends::reset_ended_lawful))]
    fn end_reset(&mut self) -> Stepped
        requires { self.old.file.phase ≡ Phase.Reset }
        ensures after { (memory : List ℕ) → physical_of self.new memory
            ≡ worked leaves (good_step_in Phase.Reset) (physical_of self.old memory) }
        ensures sectors { self.new.sectors ≡ self.old.sectors }
        ensures answer { (memory : List ℕ) →
            result ≡ stepped_if
            (acts_in Step.Good Phase.Reset (seen (physical_of self.old memory))) }
        ensures unmoved { result ≡ Stepped.Nothing → self.new ≡ self.old }
    {
        if self.file.holds_reset() {
            return Stepped::Nothing;
        }
        let mut file = self.file;
        file.end_reset();
        self.put_file(file);
        Stepped::Changed
    }

    // Ends a refused command, in a step of either kind.
    #[tactic(auto, using(ata_taskfile::proofs::Ends::refused_lawful))]
    fn refuse(&mut self, reason: Refused, done: u32) -> Stepped
        requires { self.old.file.phase ≡ Phase.Busy (Taken.Bad reason) done }
        ensures after { (step : StepOf) (memory : List ℕ) →
            physical_of self.new memory ≡ physical_step step (physical_of self.old memory) }
        ensures sectors { self.new.sectors ≡ self.old.sectors }
        ensures answer { result ≡ Stepped.Changed }
    {
        let mut file = self.file;
        file.refuse(reason);
        self.put_file(file);
        Stepped::Changed
    }

    // A good step of a command that wasn't refused, by the way in which its data moves.
    fn proceed(
        &mut self,
        order: Request,
        done: u32,
        memory: &mut GuestMemory,
    ) -> Result<Stepped, StoreFault>
        requires { self.old.file.phase ≡ Phase.Busy (Taken.Good order) done }
        ensures called { CallsStore self.old.sectors self.new.sectors result }
        ensures size { length memory.new ≡ length memory.old }
        ensures after { let p = physical_of self.old memory.old in
            OnOk result (IfTold self.old self.new (physical_of self.new memory.new
            ≡ worked (change_proceeded order.form order done (seen p))
            (proceeded order.form order done) p)) }
        ensures answer { let p = seen (physical_of self.old memory.old) in
            IfOk result (λ stepped.
            stepped ≡ stepped_if (proceeds order.form order done p.device)) }
        ensures unmoved { result ≡ Ok Stepped.Nothing → self.new ≡ self.old }
        ensures memory_unmoved { result ≡ Ok Stepped.Nothing → memory.new ≡ memory.old }
    {
        match order.form {
            Form::NoMove => self.end_without_data(order, done),
            Form::PioIn => self.give_block(order, done),
            Form::PioOut => self.receive(order, done),
            Form::DmaIn | Form::DmaOut => self.transfer(order, done, memory),
        }
    }

    // Does what a command without data does to the sectors, and ends it well.
    fn end_without_data(&mut self, order: Request, done: u32) -> Result<Stepped, StoreFault>
        requires phase { self.old.file.phase ≡ Phase.Busy (Taken.Good order) done }
        requires still { moves_by_bus order.form ≡ false }
        ensures called { CallsStore self.old.sectors self.new.sectors result }
        ensures after { OnOk result (IfTold self.old self.new ((memory : List ℕ) →
            physical_of self.new memory
            ≡ worked (change_without_data order.kind) ended (physical_of self.old memory))) }
        ensures answer { IfOk result (λ stepped. stepped ≡ Stepped.Changed) }
    {
        carry_out(&mut self.sectors, order.kind)?;
        self.end(order, done);
        Ok(Stepped::Changed)
    }

    // Ends the command well, with its walk where the bus master moves its sectors.
    #[tactic(auto, using(plain_drive::proofs::Ends::ended_lawful, plain_drive::proofs::Ends::walk_ended_lawful, plain_drive::proofs::Ends::transferred_lawful))]
    pub(crate) fn end(&mut self, order: Request, done: u32)
        requires { self.old.file.phase ≡ Phase.Busy (Taken.Good order) done }
        ensures after { (memory : List ℕ) → physical_of self.new memory
            ≡ worked leaves (transferred order) (physical_of self.old memory) }
        ensures sectors { self.new.sectors ≡ self.old.sectors }
    {
        if order.form.moves_by_bus() {
            self.bus.end_walk();
        }
        let mut file = self.file;
        file.interrupt_in(Phase::Idle);
        self.put_file(file);
    }
}

// Does to the sectors what a command without data does: FLUSH CACHE alone does something.
fn carry_out<S: Store>(sectors: &mut CachedStore<S>, kind: Kind) -> Result<(), StoreFault>
    ensures called { CallsStore sectors.old sectors.new result }
    ensures after { OnOk result (IfStoreTold sectors.old sectors.new
        (kept_of sectors.new ≡ kept_after (change_without_data kind) (kept_of sectors.old))) }
{
    match kind {
        Kind::Flush => sectors.flush(),
        Kind::Read | Kind::Write | Kind::Verify | Kind::Identify | Kind::Features => Ok(()),
    }
}
