//! The lengths of image and disk, whether they are suitable, and their area.

ghost use Rattle.std.specs.Prelude.{◌≡◌, ◌*◌, ◌/◌, ◌<◌, ℕ, List, length, IfOk, IfErr, OnOk};
ghost use Rattle.bm_host.specs.Outside.{Outside, Counted, Reads, begin_side, begun};
ghost use Rattle.fill_bitmap.specs.Area.{IsBlock};
ghost use Rattle.block_writes.specs.Kept.{KeepsFilesBut, KeepsLooked};
ghost use Rattle.bm_host.specs.declared.Role.TheVariants.{Image, Disk};
ghost use Rattle.bmcast.specs.Lengths.{Finds, HasLength, IsAreaOf, IsUnsuitable, why_of};
ghost use Rattle.run_words.specs.Options.{Choice, seen};
ghost use Rattle.fill_bitmap.specs.Lengths.{refusal_of};
ghost use Rattle.bmcast.specs.Files.{IsUnopened, LeavesFiles};
ghost use Rattle.bmcast.specs.Kept.{KeepsAllFiles, KeepsGivenBut, SameConsole};
ghost use Rattle.bmcast.specs.Stop.{status_after};
ghost use Rattle.bmcast.specs.Stop.{IsCounted};
ghost use Rattle.bmcast.specs.Stages.{StopsAt, measuring};

use crate::Why;
use crate::stop::Stop;
use ata_taskfile::registers::SECTOR_BYTES;
use bm_host::{Failed, Host, Role};
use fill_bitmap::{Area, Unsuitable, area_of};
use run_words::Options;

/// Begins image and disk, and answers their area.
pub(crate) fn measure<H: Host>(host: &mut H, options: &Options<'_>) -> Result<Area, Stop>
    requires { IsBlock options.now.block }
    ensures counts { IsCounted result (H.outside host.old) (H.outside host.new) }
    ensures files { OnOk result (KeepsAllFiles (H.outside host.old) (H.outside host.new)) }
    ensures left { LeavesFiles (status_after result) (H.outside host.old) (H.outside host.new) }
    ensures unopened { IsUnopened (H.outside host.old) (H.outside host.new) }
    ensures console { SameConsole (H.outside host.old) (H.outside host.new) }
    ensures area { IfOk result (λ area. IsAreaOf (seen options.now) area (H.outside host.old)) }
    ensures looked { KeepsLooked (H.outside host.old) (H.outside host.new) }
    ensures stops { IfErr result (StopsAt (measuring (seen options.now) (H.outside host.old))) }
{
    let Ok(image) = length_of(host, Role::Image, options.image) else {
        return Err(Stop::ReadFault(Role::Image));
    };
    let Ok(disk) = length_of(host, Role::Disk, options.disk) else {
        return Err(Stop::ReadFault(Role::Disk));
    };
    match area_of(image, disk, options.block as u32) {
        Ok(area) => Ok(area),
        Err(why) => Err(Stop::Unsuitable(why_of(why))),
    }
}

// The reason as a status tells it.
fn why_of(why: Unsuitable) -> Why
    ensures { result ≡ why_of why }
{
    match why {
        Unsuitable::ImageLength => Why::ImageLength,
        Unsuitable::DiskLength => Why::DiskLength,
        Unsuitable::TooSmall => Why::TooSmall,
        Unsuitable::TooLarge => Why::TooLarge,
    }
}

// Begins a file that is only read, and answers how many bytes it has.
#[tactic(auto, using(block_writes::proofs::Told::begun_kept))]
fn length_of<H: Host>(host: &mut H, role: Role, name: &str) -> Result<u64, Failed>
    requires side { begin_side role ≡ Reads }
    requires kept { (bytes : List ℕ) → begun role bytes ≡ bytes }
    ensures counts { Counted Reads role (H.outside host.old) (H.outside host.new) result }
    ensures files { OnOk result (KeepsAllFiles (H.outside host.old) (H.outside host.new)) }
    ensures others { KeepsFilesBut role (H.outside host.old) (H.outside host.new) }
    ensures given { KeepsGivenBut role (H.outside host.old) (H.outside host.new) }
    ensures looked { KeepsLooked (H.outside host.old) (H.outside host.new) }
    ensures length { IfOk result (HasLength role (H.outside host.old)) }
{
    host.begin(role, name)?;
    host.length(role)
}
