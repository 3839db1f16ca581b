//! Whether a run can stand on image and disk: by their lengths, and by what the disk has of an earlier run.

ghost use Rattle.std.specs.Prelude.{◌≡◌, ◌<◌, ◌*◌, IfErr, IfOk, OnOk};
ghost use Rattle.bm_host.specs.Outside.{Counted, IfTold, Reads, SameBytes};
ghost use Rattle.bm_host.specs.declared.Role.TheVariants.{Disk};
ghost use Rattle.block_writes.specs.Kept.{KeepsLooked};
ghost use Rattle.plain_drive.specs.Plain.{sectors_in};
ghost use Rattle.fill_bitmap.specs.Area.{IsBlock, IsSuitable};
ghost use Rattle.fill_bitmap.specs.Disk.{has_header};
ghost use Rattle.run_words.specs.Options.{seen};
ghost use Rattle.bmcast.specs.Files.{IsUnopened, LeavesFiles};
ghost use Rattle.bmcast.specs.Kept.{KeepsAllFiles, SameConsole};
ghost use Rattle.bmcast.specs.Lengths.{CanRun, Finds, HasLength, IsAreaOf, refusal_by};
ghost use Rattle.bmcast.specs.Stages.{IsEarly, StopsAt, checking};
ghost use Rattle.bmcast.specs.Stop.{IsCounted, status_after};

use crate::Why;
use crate::lengths::measure;
use crate::stop::Stop;
use ata_taskfile::registers::SECTOR_BYTES;
use bm_host::{Failed, Host, Role};
use fill_bitmap::Area;
use fill_store::header;
use run_words::{Mode, Options};

/// Begins image and disk, and answers their area, where the run can stand on them.
pub(crate) fn survey<H: Host>(host: &mut H, options: &Options<'_>) -> Result<Area, Stop>
    requires { IsBlock options.now.block }
    ensures counts { IsCounted result (H.outside host.old) (H.outside host.new) }
    ensures files { OnOk result (KeepsAllFiles (H.outside host.old) (H.outside host.new)) }
    ensures left { LeavesFiles (status_after result) (H.outside host.old) (H.outside host.new) }
    ensures unopened { IsUnopened (H.outside host.old) (H.outside host.new) }
    ensures console { SameConsole (H.outside host.old) (H.outside host.new) }
    ensures looked { KeepsLooked (H.outside host.old) (H.outside host.new) }
    ensures area { IfOk result (λ area. IsAreaOf (seen options.now) area (H.outside host.old)) }
    ensures can { OnOk result
        (Finds (seen options.now) (H.outside host.old) (CanRun (seen options.now))) }
    ensures stops { IfErr result (IsEarly (seen options.now) (H.outside host.old)) }
{
    let area = match measure(host, options) {
        Ok(area) => area,
        Err(stop) => return Err(stop),
    };
    match check_header(host, options, &area) {
        Ok(()) => Ok(area),
        Err(stop) => Err(stop),
    }
}

// Looks whether the disk has the header of this run, where the image isn't empty: a deployment begins without it, and
// goes on with it.
fn check_header<H: Host>(host: &mut H, options: &Options<'_>, area: &Area) -> Result<(), Stop>
    requires { IsAreaOf (seen options.now) area.now (H.outside host.old) }
    ensures counts { IsCounted result (H.outside host.old) (H.outside host.new) }
    ensures bytes { SameBytes (H.outside host.old) (H.outside host.new) }
    ensures looked { KeepsLooked (H.outside host.old) (H.outside host.new) }
    ensures can { OnOk result
        (Finds (seen options.now) (H.outside host.old) (CanRun (seen options.now))) }
    ensures stops { IfErr result (StopsAt (checking (seen options.now) (H.outside host.old))) }
{
    if area.image == 0 {
        return Ok(());
    }
    let Ok(begun) = has_header(host, area, options.id) else {
        return Err(Stop::ReadFault(Role::Disk));
    };
    match refusal_by(options.mode, begun) {
        None => Ok(()),
        Some(why) => Err(Stop::Unsuitable(why)),
    }
}

// Why a deployment of this mode can't stand on the disk.
fn refusal_by(mode: Mode, begun: bool) -> Option<Why>
    ensures { result ≡ refusal_by mode begun }
{
    match mode {
        Mode::Fresh if begun => Some(Why::AlreadyBegun),
        Mode::Resume if !begun => Some(Why::NotBegun),
        _ => None,
    }
}

// Whether the first reserved sector of the disk is the header of the run `id`.
fn has_header<H: Host>(host: &mut H, area: &Area, id: u64) -> Result<bool, Failed>
    requires suitable { IsSuitable area.now }
    requires some { 0 < area.now.image }
    requires disk { HasLength Disk (H.outside host.old) (SECTOR_BYTES * area.now.sectors) }
    ensures cause { Counted Reads Disk (H.outside host.old) (H.outside host.new) result }
    ensures bytes { SameBytes (H.outside host.old) (H.outside host.new) }
    ensures looked { KeepsLooked (H.outside host.old) (H.outside host.new) }
    ensures header { IfOk result (λ begun. IfTold ((H.outside host.old).told Disk)
        (λ bytes. begun ≡ has_header area.now id (sectors_in area.now.sectors bytes))) }
{
    let mut found = [0; SECTOR_BYTES];
    host.read_at(
        Role::Disk,
        area.reserved() * SECTOR_BYTES as u64,
        &mut found,
    )?;
    let mut wanted = [0; SECTOR_BYTES];
    header(area, id, &mut wanted);
    Ok(found == wanted)
}
