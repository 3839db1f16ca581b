//! The registers of an own command.

ghost use Rattle.std.specs.Prelude.{◌≡◌, true, false};
ghost use Rattle.ata_taskfile.specs.Device.{Device};
ghost use Rattle.ata_taskfile.specs.Accesses.{Reaches};
ghost use Rattle.ata_taskfile.specs.declared.registers.TheConstants.{DEV};
ghost use Rattle.ata_taskfile.specs.TaskFile.{has_bit};
ghost use Rattle.port_lease.specs.Free.{is_free};
ghost use Rattle.port_lease.specs.Writing.{IsAtRest};
ghost use Rattle.own_pio.specs.Job.{IsFit, IsNamed};
ghost use Rattle.own_pio.specs.Named.{named, nien_of};
ghost use Rattle.own_pio.specs.Running.{IsBegun};

use crate::OwnJob;
use ata_taskfile::registers::{FLUSH_CACHE, LBA, NIEN, READ_SECTORS, WRITE_SECTORS};
use ata_taskfile::{Ports, Reg};
use port_lease::MonitorSide;

// Gives a job's command, over its registers, to a free drive. An interrupt of it must not reach the guest's line.
pub(crate) fn command_job<P: Ports>(side: &mut MonitorSide, ports: &mut P, job: OwnJob)
    requires free { is_free (P.device ports.old).file ≡ true }
    requires fit { IsFit job }
    ensures begun { IsBegun true job (P.device ports.old) (P.device ports.new) }
    ensures side { side.new ≡ side.old }
    ensures rest { P.rest ports.new ≡ P.rest ports.old }
    ensures reached { (origin : Device) → Reaches origin (P.device ports.old)
        → Reaches origin (P.device ports.new) }
{
    match job {
        OwnJob::Read(first, count) => command_read(side, ports, true, first, count),
        OwnJob::Write(first, count) => command_write(side, ports, first, count),
        OwnJob::Flush => command_flush(side, ports),
    }
}

/// Gives READ SECTOR(S) to a free drive, with nIEN at 1 where `masked`.
#[tactic(auto, using(crate::proofs::Named::read_named))]
pub fn command_read<P: Ports>(
    side: &mut MonitorSide,
    ports: &mut P,
    masked: bool,
    first: u64,
    count: u32,
)
    requires free { is_free (P.device ports.old).file ≡ true }
    requires named { IsNamed first count }
    ensures begun { IsBegun masked (OwnJob.Read first count)
        (P.device ports.old) (P.device ports.new) }
    ensures side { side.new ≡ side.old }
    ensures rest { P.rest ports.new ≡ P.rest ports.old }
    ensures reached { (origin : Device) → Reaches origin (P.device ports.old)
        → Reaches origin (P.device ports.new) }
{
    put_nien(side, ports, masked);
    name_sectors(side, ports, first, count);
    side.put_command(ports, READ_SECTORS);
}

// Gives WRITE SECTOR(S) to a free drive.
#[tactic(auto, using(crate::proofs::Named::write_named))]
fn command_write<P: Ports>(side: &mut MonitorSide, ports: &mut P, first: u64, count: u32)
    requires free { is_free (P.device ports.old).file ≡ true }
    requires named { IsNamed first count }
    ensures begun { IsBegun true (OwnJob.Write first count)
        (P.device ports.old) (P.device ports.new) }
    ensures side { side.new ≡ side.old }
    ensures rest { P.rest ports.new ≡ P.rest ports.old }
    ensures reached { (origin : Device) → Reaches origin (P.device ports.old)
        → Reaches origin (P.device ports.new) }
{
    put_nien(side, ports, true);
    name_sectors(side, ports, first, count);
    side.put_command(ports, WRITE_SECTORS);
}

// Gives FLUSH CACHE to a free drive.
fn command_flush<P: Ports>(side: &mut MonitorSide, ports: &mut P)
    requires free { is_free (P.device ports.old).file ≡ true }
    ensures begun { IsBegun true OwnJob.Flush
        (P.device ports.old) (P.device ports.new) }
    ensures side { side.new ≡ side.old }
    ensures rest { P.rest ports.new ≡ P.rest ports.old }
    ensures reached { (origin : Device) → Reaches origin (P.device ports.old)
        → Reaches origin (P.device ports.new) }
{
    put_nien(side, ports, true);
    side.put_command(ports, FLUSH_CACHE);
}

// Writes Device Control, by nIEN alone.
fn put_nien<P: Ports>(side: &mut MonitorSide, ports: &mut P, masked: bool)
    requires free { is_free (P.device ports.old).file ≡ true }
    ensures put { let d = P.device ports.old in
        P.device ports.new ≡ record d { file = record d.file { control = nien_of masked } } }
    ensures side { side.new ≡ side.old }
    ensures rest { P.rest ports.new ≡ P.rest ports.old }
    ensures reached { (origin : Device) → Reaches origin (P.device ports.old)
        → Reaches origin (P.device ports.new) }
{
    side.put_control(ports, if masked { NIEN } else { 0 });
}

// Writes the registers that name the sectors of a command.
fn name_sectors<P: Ports>(side: &mut MonitorSide, ports: &mut P, first: u64, count: u32)
    requires rests { IsAtRest (P.device ports.old).file }
    requires named { IsNamed first count }
    ensures named { let d = P.device ports.old in
        P.device ports.new ≡ record d { file = named first count d.file } }
    ensures selected { has_bit DEV (P.device ports.new).file.device ≡ false }
    ensures side { side.new ≡ side.old }
    ensures rest { P.rest ports.new ≡ P.rest ports.old }
    ensures reached { (origin : Device) → Reaches origin (P.device ports.old)
        → Reaches origin (P.device ports.new) }
{
    side.put_register(ports, Reg::Count, count as u8);
    side.put_register(ports, Reg::Low, (first % 256) as u8);
    side.put_register(ports, Reg::Mid, (first / 256 % 256) as u8);
    side.put_register(ports, Reg::High, (first / 65_536 % 256) as u8);
    side.put_register(ports, Reg::Device, LBA + (first / 16_777_216) as u8);
}
