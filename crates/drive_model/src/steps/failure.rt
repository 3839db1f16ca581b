//! How a command fails: its registers, and the end of its walk.

ghost use Rattle.std.specs.Prelude.{◌≡◌, ℕ, List};
ghost use Rattle.plain_drive.specs.Change.{leaves};
ghost use Rattle.plain_drive.specs.Step.{given_up};
ghost use Rattle.drive_model.specs.Drive.{physical_of, worked};

use crate::Drive;
use ata_taskfile::{Phase, Request, Stepped, Taken};
use drive_store::Store;
use plain_drive::{failure_bit, show_failure};

impl<S: Store> Drive<S> {
    // Ends the command as failed, with its walk.
    #[tactic(auto, using(plain_drive::proofs::Ends::walk_ended_lawful, plain_drive::proofs::Ends::order_within, plain_drive::proofs::Ends::within_count))]
    pub(crate) fn give_up(&mut self, order: Request, done: u32) -> Stepped
        requires { self.old.file.phase ≡ Phase.Busy (Taken.Good order) done }
        ensures after { (memory : List ℕ) → physical_of self.new memory
            ≡ worked leaves (given_up order done) (physical_of self.old memory) }
        ensures sectors { self.new.sectors ≡ self.old.sectors }
        ensures answer { result ≡ Stepped.Changed }
    {
        let mut file = self.file;
        show_failure(&mut file, order, done);
        file.end_failed(failure_bit(order.kind));
        if order.form.moves_by_bus() {
            self.bus.end_walk();
        }
        self.put_file(file);
        Stepped::Changed
    }
}
