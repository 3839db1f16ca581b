//! The words and files that the runs have in common.

use bm_host::{MemoryHost, NoMemory, QuietHost, Role};
use bmcast::{Status, bmcast};
use std::alloc::Global;
use std::process::Abort;
use std::test::Fail;

/// The words of a run.
pub const WORDS: [&str; 19] = [
    "run",
    "--image",
    "image",
    "--disk",
    "disk",
    "--schedule",
    "schedule",
    "--report",
    "report",
    "--out",
    "out",
    "--mode",
    "fresh",
    "--id",
    "7",
    "--block",
    "8",
    "--gap",
    "100",
];

/// A disk of 16 sectors.
pub const DISK: [u8; 8192] = [0xee; 8192];

/// What Report holds before a run.
pub const OLD_REPORT: &[u8] = b"old\n";

/// A status, and what Console holds then.
pub type Ending = (Status, &'static [u8]);

/// The files of a run, and the numbers of its host's calls that fail.
#[derive(Clone, Copy)]
pub struct Files<'a> {
    pub image: &'a [u8],
    pub disk: &'a [u8],
    pub schedule: &'a [u8],
    pub failing: &'a [u32],
}

/// Runs `bmcast` over these files, by `words` and `more` words.
pub fn run(
    alloc: Global,
    words: &[&str],
    more: &[&str],
    files: &Files<'_>,
) -> Result<(Status, MemoryHost), NoMemory> {
    let mut host = host_of(alloc, files)?;
    let words = owned(alloc, words, more)?;
    let status = bmcast(alloc, words.as_slice(), &mut host);
    Ok((status, host))
}

/// Runs `bmcast` over a schedule without an image, by the words of a run. The host's calls of these numbers fail.
pub fn run_schedule(
    alloc: Global,
    schedule: &[u8],
    failing: &[u32],
) -> Result<(Status, MemoryHost), NoMemory> {
    run(alloc, &WORDS, &[], &without_image(schedule, failing))
}

/// Checks that a schedule without an image is done, with this report, these bytes in Out and none in Console.
pub fn check_done(
    rt: &impl Abort,
    alloc: Global,
    schedule: &[u8],
    report: &[u8],
    out: &[u8],
) -> Result<(), Fail> {
    let (status, host) = run_schedule(alloc, schedule, &[])?;
    assert_eq!(rt; status, Status::Done, "at {schedule:?}");
    assert_eq!(rt; host.contents(Role::Report), report, "at {schedule:?}");
    assert_eq!(rt; host.contents(Role::Out), out, "at {schedule:?}");
    assert_eq!(rt;
        host.contents(Role::Console),
        b"".as_slice(),
        "at {schedule:?}"
    );
    Ok(())
}

/// Runs `bmcast` over the schedule that only ends, without an image, by `words` and `more` words.
pub fn run_words(
    alloc: Global,
    words: &[&str],
    more: &[&str],
) -> Result<(Status, MemoryHost), NoMemory> {
    run(alloc, words, more, &without_image(b"end\n", &[]))
}

/// Runs `bmcast` over a schedule without an image and a host that never fails, by the words of a run.
pub fn run_quietly(alloc: Global, schedule: &[u8]) -> Result<Status, NoMemory> {
    let mut host = QuietHost::new(named(alloc, &without_image(schedule, &[]))?);
    let words = owned(alloc, &WORDS, &[])?;
    Ok(bmcast(alloc, words.as_slice(), &mut host))
}

fn without_image<'a>(schedule: &'a [u8], failing: &'a [u32]) -> Files<'a> {
    Files {
        image: &[],
        disk: &DISK,
        schedule,
        failing,
    }
}

fn host_of(alloc: Global, files: &Files<'_>) -> Result<MemoryHost, NoMemory> {
    let named = named(alloc, files)?;
    MemoryHost::new(alloc, named, files.failing.to_vec(alloc)?, 16_384)
}

fn named(alloc: Global, files: &Files<'_>) -> Result<Vec<(Role, Vec<u8>)>, NoMemory> {
    let mut named = Vec::new(alloc);
    named.push((Role::Image, files.image.to_vec(alloc)?))?;
    named.push((Role::Disk, files.disk.to_vec(alloc)?))?;
    named.push((Role::Schedule, files.schedule.to_vec(alloc)?))?;
    named.push((Role::Report, OLD_REPORT.to_vec(alloc)?))?;
    Ok(named)
}

/// The words, and behind them `more` words, each as a text of its own.
pub fn owned(alloc: Global, words: &[&str], more: &[&str]) -> Result<Vec<String>, NoMemory> {
    let mut all = Vec::new(alloc);
    for word in words {
        all.push(String::from_str(alloc, word)?)?;
    }
    for word in more {
        all.push(String::from_str(alloc, word)?)?;
    }
    Ok(all)
}

/// Three texts, one behind the other.
pub fn joined(alloc: Global, texts: [&[u8]; 3]) -> Result<Vec<u8>, NoMemory> {
    let mut all = Vec::new(alloc);
    for text in texts {
        all.extend_from_slice(text)?;
    }
    Ok(all)
}
