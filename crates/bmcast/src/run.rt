//! A whole run, step by step: words, image and disk, files, the world's start, events, report, and the world's end.

ghost use Rattle.std.specs.Prelude.{◌≡◌, ◌≤◌, Some, [], IfErr, OnOk, IfOk};
ghost use Rattle.bm_host.specs.Outside.{IfTold};
ghost use Rattle.bm_host.specs.declared.Role.TheVariants.{Image, Out};
ghost use Rattle.block_writes.specs.Kept.{KeepsFilesBut, KeepsLooked};
ghost use Rattle.std.specs.List.{concat};
ghost use Rattle.monitor_state.specs.Setup.{IsSetup};
ghost use Rattle.run_words.specs.Options.{seen};
ghost use Rattle.run_words.specs.Pairs.{texts};
ghost use Rattle.bmcast.specs.Files.{IsOpened, LeavesFiles};
ghost use Rattle.bmcast.specs.Kept.{KeepsFiles, SameConsole};
ghost use Rattle.bmcast.specs.Lengths.{IsAreaOf};
ghost use Rattle.bmcast.specs.SetUp.{setup_of};
ghost use Rattle.bmcast.specs.Stop.{IsCounted, OnBadLine};
ghost use Rattle.bmcast.specs.Stages.{IsLate, StopsAt, beginning, playing, writing_out};
ghost use Rattle.bmcast.specs.Status.{BeforeEvents, HasCome, HasItsReason};
ghost use Rattle.bmcast.specs.Stop.{status_after};
ghost use Rattle.bmcast.specs.Played.{Begun, HasPlayed, HasEnded, HasFailed, IsOver};
ghost use Rattle.bmcast.specs.Played.{IsReported, IsStopped};
ghost use Rattle.bmcast.specs.Run.{DoneRun, BadLineRun, RunIsBad, RunIsDone};

use crate::play::play;
use crate::stop::Stop;
use crate::streams::Streams;
use crate::survey::survey;
use bm_dma::MOST_BYTES;
use bm_host::{Host, Role};
use fill_bitmap::Area;
use monitor_state::Setup;
use run_words::{Options, read_options};
use std::alloc::Global;
use world::World;

/// Does what the words say, to the end of the schedule.
///
/// Memory is taken before the first event and not after it.
pub(crate) fn run<H: Host>(alloc: Global, words: &[String], host: &mut H) -> Result<(), Stop>
    ensures counts { IsCounted result (H.outside host.old) (H.outside host.new) }
    ensures done { OnOk result
        (RunIsDone (texts words.now) (H.outside host.old) (H.outside host.new)) }
    ensures bad { OnBadLine result
        (RunIsBad (texts words.now) (H.outside host.old) (H.outside host.new)) }
    ensures reason { HasItsReason (status_after result) (texts words.now) (H.outside host.old) }
    ensures files { LeavesFiles (status_after result) (H.outside host.old) (H.outside host.new) }
    ensures came { HasCome (status_after result) (texts words.now)
        (H.outside host.old) (H.outside host.new) }
    ensures looked { BeforeEvents (status_after result)
        (KeepsLooked (H.outside host.old) (H.outside host.new)) }
    ensures empty { (H.outside host.old).told Image ≡ Some []
        → KeepsLooked (H.outside host.old) (H.outside host.new) }
    ensures console { SameConsole (H.outside host.old) (H.outside host.new) }
{
    let Some(options) = read_options(words) else {
        return Err(Stop::Usage);
    };
    let area = match survey(host, &options) {
        Ok(area) => area,
        Err(stop) => return Err(stop),
    };
    run_events(alloc, host, &options, &set_up(&options, area))
}

// What the words set a deployment up with, over this area.
fn set_up(options: &Options<'_>, area: Area) -> Setup
    requires { IsSetup (setup_of area (seen options.now)) }
    ensures { result ≡ setup_of area (seen options.now) }
{
    Setup {
        area,
        id: options.id,
        gap: options.gap as u32,
        window: options.window as u32,
        limit: options.limit as u32,
        pool: options.pool as u32,
    }
}

// Does the events over files that are suitable, set up so.
fn run_events<H: Host>(
    alloc: Global,
    host: &mut H,
    options: &Options<'_>,
    setup: &Setup,
) -> Result<(), Stop>
    requires setup { IsSetup setup.now }
    requires memory { options.now.memory ≤ MOST_BYTES }
    requires area { IsAreaOf (seen options.now) setup.now.area (H.outside host.old) }
    requires id { setup.now.id ≡ (seen options.now).id }
    ensures counts { IsCounted result (H.outside host.old) (H.outside host.new) }
    ensures late { IfErr result IsLate }
    ensures looked { BeforeEvents (status_after result)
        (KeepsLooked (H.outside host.old) (H.outside host.new)) }
    ensures empty { setup.now.area.image ≡ 0
        → KeepsLooked (H.outside host.old) (H.outside host.new) }
    ensures done { OnOk result
        (DoneRun (seen options.now) (H.outside host.old) (H.outside host.new)) }
    ensures bad { OnBadLine result
        (BadLineRun (seen options.now) (H.outside host.old) (H.outside host.new)) }
    ensures files { LeavesFiles (status_after result) (H.outside host.old) (H.outside host.new) }
    ensures opened { BeforeEvents (status_after result) (IsOpened (H.outside host.new)) }
    ensures console { SameConsole (H.outside host.old) (H.outside host.new) }
{
    match begin_files(host, options) {
        Ok(()) => {}
        Err(stop) => return Err(stop),
    }
    let mut world = match World::start(alloc, host, setup, options.memory as u32) {
        Ok(world) => world,
        Err(fault) => return Err(Stop::at_start(fault)),
    };
    match report_run(host, &mut world, setup.area.image) {
        Ok(()) => end_run(host, world),
        Err(stop) => {
            world.discard();
            Err(stop)
        }
    }
}

// Ends the world, and writes out.
fn end_run<H: Host>(host: &mut H, world: World) -> Result<(), Stop>
    requires empty { IfTold ((H.outside host.old).told Out) (λ bytes. bytes ≡ []) }
    ensures counts { IsCounted result (H.outside host.old) (H.outside host.new) }
    ensures stops { IfErr result (StopsAt writing_out) }
    ensures looked { KeepsLooked (H.outside host.old) (H.outside host.new) }
    ensures files { KeepsFilesBut Out (H.outside host.old) (H.outside host.new) }
    ensures out { OnOk result (IfTold ((H.outside host.new).told Out)
        (λ bytes. bytes ≡ concat world.scene.drive.kept.durable)) }
{
    match world.close(host) {
        Ok(()) => Ok(()),
        Err(fault) => Err(Stop::of(fault)),
    }
}

// Begins the files of the run but image and disk; report and out are empty afterwards.
fn begin_files<H: Host>(host: &mut H, options: &Options<'_>) -> Result<(), Stop>
    ensures counts { IsCounted result (H.outside host.old) (H.outside host.new) }
    ensures stops { IfErr result (StopsAt beginning) }
    ensures looked { KeepsLooked (H.outside host.old) (H.outside host.new) }
    ensures ready { OnOk result (IsOpened (H.outside host.new)) }
    ensures files { LeavesFiles (status_after result) (H.outside host.old) (H.outside host.new) }
    ensures console { SameConsole (H.outside host.old) (H.outside host.new) }
{
    let Ok(()) = host.begin(Role::Schedule, options.schedule) else {
        return Err(Stop::ReadFault(Role::Schedule));
    };
    let Ok(()) = host.begin(Role::Report, options.report) else {
        return Err(Stop::WriteFault(Role::Report));
    };
    let Ok(()) = host.begin(Role::Out, options.out) else {
        return Err(Stop::WriteFault(Role::Out));
    };
    Ok(())
}

// Plays the schedule to its end over an image of so many sectors, and writes the report; the same up to a line that is
// refused.
fn report_run<H: Host>(host: &mut H, world: &mut World, image: u64) -> Result<(), Stop>
    requires ready { IsOpened (H.outside host.old) }
    requires over { IsOver image (H.outside host.old) world.old.scene }
    ensures counts { IsCounted result (H.outside host.old) (H.outside host.new) }
    ensures files { KeepsFiles (H.outside host.old) (H.outside host.new) }
    ensures stops { IfErr result (StopsAt playing) }
    ensures looked { image ≡ 0 → KeepsLooked (H.outside host.old) (H.outside host.new) }
    ensures reported { OnOk result (IsReported (H.outside host.old) (H.outside host.new)
        world.old world.new) }
    ensures bad { OnBadLine result (IsStopped (H.outside host.old) (H.outside host.new)
        world.old world.new) }
{
    let mut streams = Streams::new();
    let number = match play_to_end(host, &mut streams, world, image) {
        Ok(number) => number,
        Err(stop) => return Err(stop),
    };
    streams.report_end(host, number)?;
    streams.flush(host)?;
    Ok(())
}

// Plays the schedule. Where a line is refused, the report of the events before it is written all the same.
fn play_to_end<H: Host>(
    host: &mut H,
    streams: &mut Streams,
    world: &mut World,
    image: u64,
) -> Result<u32, Stop>
    requires over { IsOver image (H.outside host.old) world.old.scene }
    ensures counts { IsCounted result (H.outside host.old) (H.outside host.new) }
    ensures files { KeepsFiles (H.outside host.old) (H.outside host.new) }
    ensures stops { IfErr result (StopsAt playing) }
    ensures looked { image ≡ 0 → KeepsLooked (H.outside host.old) (H.outside host.new) }
    ensures ended { IfOk result (λ number. (start : Begun)
        → HasPlayed start streams.old (H.outside host.old) world.old 1
        → HasEnded start streams.new (H.outside host.new) world.new number) }
    ensures bad { OnBadLine result (λ bad kind. (start : Begun)
        → HasPlayed start streams.old (H.outside host.old) world.old 1
        → HasFailed start streams.new (H.outside host.new) world.new bad kind) }
    ensures written { OnBadLine result (λ bad kind. streams.new.pending.items ≡ []) }
{
    match play(host, streams, world, image) {
        Ok(number) => Ok(number),
        Err(Stop::BadLine(number, fault)) => match streams.flush(host) {
            Ok(()) => Err(Stop::BadLine(number, fault)),
            Err(stop) => Err(stop),
        },
        Err(stop) => Err(stop),
    }
}
