//! An own command, from its begin to its end.

ghost use Rattle.std.specs.Prelude.{◌≤◌};
ghost use Rattle.ata_taskfile.specs.Device.{Device};
ghost use Rattle.ata_taskfile.specs.Accesses.{Reaches};
ghost use Rattle.own_pio.specs.Job.{IsFit, polls_of};

use crate::commands::command_job;
use crate::polling::{left_after, mark_if_ended, poll_drive};
use crate::{OwnJob, Poll};
use ata_taskfile::Ports;
use ata_taskfile::registers::SECTOR_BYTES;
use port_lease::MonitorSide;

/// A command of the monitor's own that was begun, a read, a write or a flush by PIO, with the polls that are left.
///
/// A dummy read is marked on the side as an own command too, but is no `Own`.
#[derive(Drop)]
pub struct Own {
    pub(crate) job: OwnJob,
    pub(crate) left: u32,
    ghost fit: { IsFit job },
    ghost within: { left ≤ polls_of job },
}

impl Own {
    ghost use Rattle.std.specs.Prelude.{◌≡◌, ◌<◌, ◌*◌, ◌&&◌, ℕ, List, true, false, length};
    ghost use Rattle.ata_taskfile.specs.declared.Phase.TheVariants.{Busy};
    ghost use Rattle.ata_taskfile.specs.TaskFile.{is_at_work};
    ghost use Rattle.ata_taskfile.specs.Device.{Cell};
    ghost use Rattle.port_lease.specs.Free.{is_free};
    ghost use Rattle.port_lease.specs.Handover.{shows_well};
    ghost use Rattle.port_lease.specs.Sides.{view_held, has_own};
    ghost use Rattle.own_pio.specs.Job.{count_of, command_of, job_order};
    ghost use Rattle.own_pio.specs.Own.{job_of, polls_left, done_of};
    ghost use Rattle.own_pio.specs.Running.{IsRunning, IsUnseen};
    ghost use Rattle.own_pio.specs.Poll.{answer_of, goes_on, left_after, bytes_after};
    ghost use Rattle.own_pio.specs.Kept.{IsDoneSoFar, Leaves};

    /// Begins a job on a free drive, with nIEN at 1, so that the guest sees nothing of it.
    #[tactic(auto, using(crate::proofs::Stored::begun_kept))]
    pub fn begin<P: Ports>(side: &mut MonitorSide, ports: &mut P, job: OwnJob) -> Own
        requires alone { has_own side.old ≡ false }
        requires free { is_free (P.device ports.old).file ≡ true }
        requires fit { IsFit job }

        ensures job { job_of result ≡ job }
        ensures left { polls_left result ≡ polls_of job }
        ensures runs { IsRunning job 0 (P.device ports.new) }
        ensures taken { (P.device ports.new).file.phase
            ≡ Busy (job_order job (P.device ports.old).sectors) 0 }
        ensures byte { (P.device ports.new).file.command ≡ command_of job }
        ensures kept { (bytes : List ℕ) →
            IsDoneSoFar job 0 bytes bytes (P.device ports.old).cells (P.device ports.new) }

        // The guest sees nothing of it, and no sector changes.
        ensures unseen { IsUnseen (P.device ports.old) (P.device ports.new) }
        ensures own { has_own side.new ≡ true }
        ensures view { view_held side.new ≡ view_held side.old }
        ensures rest { P.rest ports.new ≡ P.rest ports.old }
        ensures reached { (origin : Device) → Reaches origin (P.device ports.old)
            → Reaches origin (P.device ports.new) }
    {
        side.own_begins();
        command_job(side, ports, job);
        Own {
            job,
            left: job.polls(),
        }
    }

    /// Polls the command, which hasn't ended: by Status, which acknowledges its interrupt, and where a block waits or
    /// is wanted, by moving it. `bytes` are the job's, 512 for each sector; those of a flush are none.
    pub fn poll<P: Ports>(
        &mut self,
        side: &mut MonitorSide,
        ports: &mut P,
        bytes: &mut [u8],
    ) -> Poll
        requires stands { 0 < polls_left self.old }
        requires runs { IsRunning (job_of self.old) (done_of self.old) (P.device ports.old) }
        requires bytes { length bytes.old ≡ SECTOR_BYTES * count_of (job_of self.old) }

        ensures answer { result
            ≡ answer_of (job_of self.old) (polls_left self.old) (P.device ports.old).file }
        ensures left { polls_left self.new ≡ left_after result (polls_left self.old) }
        ensures job { job_of self.new ≡ job_of self.old }
        ensures bytes { bytes.new
            ≡ bytes_after (job_of self.old) result (done_of self.old)
            (P.device ports.old) bytes.old }
        ensures kept { (start : List ℕ) (origin : List Cell) →
            IsDoneSoFar (job_of self.old) (done_of self.old) bytes.old start origin
            (P.device ports.old)
            → Leaves result (job_of self.old) (polls_left self.old) bytes.new start origin
            (P.device ports.new) }

        // It still runs, or the drive is free.
        ensures runs { goes_on result ≡ true
            → IsRunning (job_of self.new) (done_of self.new) (P.device ports.new) }
        ensures free { goes_on result ≡ false → is_free (P.device ports.new).file ≡ true }
        ensures well { result ≡ Poll.Done → shows_well (P.device ports.new).file ≡ true }
        ensures goes { goes_on result ≡ true → 0 < polls_left self.new }

        // As long as the command goes on the drive is at work behind a poll.
        ensures works { goes_on result ≡ true
            → is_at_work (P.device ports.new).file.phase ≡ true }
        ensures own { has_own side.new ≡ (goes_on result && has_own side.old) }

        // The guest sees nothing of it, and no sector changes but by the drive's own steps.
        ensures unseen { IsUnseen (P.device ports.old) (P.device ports.new) }
        ensures view { view_held side.new ≡ view_held side.old }
        ensures rest { P.rest ports.new ≡ P.rest ports.old }
        ensures reached { (origin : Device) → Reaches origin (P.device ports.old)
            → Reaches origin (P.device ports.new) }
    {
        let poll = poll_drive(self.job, self.left, side, ports, bytes);
        self.left = left_after(poll, self.left);
        mark_if_ended(side, poll);
        poll
    }
}
