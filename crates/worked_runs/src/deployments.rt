//! Runs with an image on the network: what a guest gets while the disk under it is filled from there.
//!
//! The image has 8 sectors, which are one block; sector i is all bytes 10h + i. The disk has 16, all EEh, so its header
//! stands in sector 13, its bitmap in 14, and a dummy read reads 15.

use crate::hosts::{DISK, Files, OLD_REPORT, WORDS, run};
use bm_host::{MemoryHost, NoMemory, Role};
use bmcast::{Status, Why};
use std::alloc::Global;
use std::process::Abort;
use std::test::Fail;

/// A part of a schedule or of a report.
#[derive(Clone, Copy)]
enum Part<'a> {
    Text(&'a [u8]),

    /// Two hexadecimal digits, so often one behind the other.
    Many(&'a [u8], usize),
}

use Part::{Many, Text};

// The monitor opens a disk without a header: it reads where the header would stand, writes the bitmap, flushes, writes
// the header, and flushes. Then the reset ends that the guest sees. 21 lines.
const OPEN: Part<'static> = Text(
    b"d ok\nt\nd ok\nt\nt\nd ok\nt\nd ok\nt\nt\nd ok\nt\nt\nd ok\nt\nd ok\nt\nt\nd ok\nt\nt\n",
);

const OPENED: Part<'static> = Text(
    b"2 c 20 13 1\n5 c 30 14 1\n10 c e7 0 0\n13 c 30 13 1\n18 c e7 0 0\n20 m ready\n21 p go 1\n",
);

// READ SECTOR(S) of sector 3. Six lines.
const READ_3: Part<'static> = Text(
    b"g w8 sc 01\ng w8 ll 03\ng w8 lm 00\ng w8 lh 00\ng w8 dv e0\ng w8 st 20\n",
);

// The server takes four requests, and the client their replies. Eight lines.
const FETCH: Part<'static> = Text(b"n s 0\nn s 0\nn s 0\nn s 0\nn c 0\nn c 0\nn c 0\nn c 0\n");

const ASKED_AT_28: Part<'static> = Text(b"28 a 0\n28 a 1\n28 a 2\n28 a 3\n");

// The header of the run 7 over an image of 8 sectors in blocks of 8. Zeros follow.
const HEADER: &[u8] = b"BMCFILL1\0\0\0\0\0\0\0\x07\0\0\0\0\0\0\0\x08\0\0\0\x08";

fn written(alloc: Global, parts: &[Part<'_>]) -> Result<Vec<u8>, NoMemory> {
    let mut text = Vec::new(alloc);
    for part in parts {
        match *part {
            Text(bytes) => text.extend_from_slice(bytes)?,
            Many(digits, count) => {
                for _ in 0..count {
                    text.extend_from_slice(digits)?;
                }
            }
        }
    }
    Ok(text)
}

fn image(alloc: Global) -> Result<Vec<u8>, NoMemory> {
    let mut bytes = Vec::new(alloc);
    for sector in 0x10..0x18u8 {
        bytes.extend_from_slice(&[sector; 512])?;
    }
    Ok(bytes)
}

// The disk as the opening leaves it: with the header, and a bitmap of zeros.
fn opened_disk(alloc: Global) -> Result<Vec<u8>, NoMemory> {
    let mut bytes = Vec::new(alloc);
    bytes.extend_from_slice(&[0xee; 13 * 512])?;
    bytes.extend_from_slice(HEADER)?;
    bytes.resize(15 * 512, 0)?;
    bytes.resize(16 * 512, 0xee)?;
    Ok(bytes)
}

// A run over this disk, by the words of a run in this mode. The host's calls of these numbers fail.
fn deploy(
    alloc: Global,
    mode: &'static str,
    disk: &[u8],
    schedule: &[Part<'_>],
    failing: &[u32],
) -> Result<(Status, MemoryHost), NoMemory> {
    let mut words = WORDS;
    words[12] = mode;
    let image = image(alloc)?;
    let schedule = written(alloc, schedule)?;
    let files = Files {
        image: image.as_slice(),
        disk,
        schedule: schedule.as_slice(),
        failing,
    };
    run(alloc, &words, &[], &files)
}

// A run over the disk without a header that begins with these parts is done, with this report. No write of a guest's
// becomes durable, so Out is as the opening left it.
fn check_deployed(
    rt: &impl Abort,
    alloc: Global,
    schedule: &[Part<'_>],
    report: &[Part<'_>],
) -> Result<(), Fail> {
    let (status, host) = deploy(alloc, "fresh", &DISK, schedule, &[])?;
    assert_eq!(rt; status, Status::Done);
    let report = written(alloc, report)?;
    assert_eq!(rt; host.contents(Role::Report), report.as_slice());
    let out = opened_disk(alloc)?;
    assert_eq!(rt; host.contents(Role::Out), out.as_slice());
    assert_eq!(rt; host.contents(Role::Console), b"".as_slice());
    Ok(())
}

// How many helpful turns the schedule of an opening has since its start, or since the last step that failed: those
// before which the drive was told to make a good step since the last helpful one. No command waits for a tag yet.
fn helpful_turns(schedule: &[u8]) -> u32 {
    let mut stepped = false;
    let mut turns = 0u32;
    for line in schedule.split(|byte| *byte == b'\n') {
        if line == b"d ok".as_slice() {
            stepped = true;
        } else if line == b"d bad".as_slice() {
            turns = 0;
        } else if line == b"t".as_slice() && stepped {
            stepped = false;
            turns = turns.saturating_add(1);
        }
    }
    turns
}

// The opening of a disk without a header has 8 helpful turns; over one sector of bitmap 80 are the bound. A turn at a
// drive that is at work, or a second one behind a step, isn't helpful. Where a step fails the count begins anew, and so
// does the command.
#[test]
fn helpful_turns_until_the_monitor_is_ready(rt: HostRuntime) -> Result<(), Fail> {
    // The schedule before its end, the report, and the helpful turns, counted by hand.
    let cases = [
        (OPEN, [OPENED, Text(b"end 22\n")], 8),
        (
            Text(
                b"d ok\nt\nt\nd ok\nt\nt\nd ok\nt\nt\nd ok\nt\nt\nd ok\nt\nt\nd ok\nt\nt\nd ok\nt\nt\nd ok\nt\nt\n",
            ),
            [
                Text(b"2 c 20 13 1\n6 c 30 14 1\n12 c e7 0 0\n15 c 30 13 1\n21 c e7 0 0\n"),
                Text(b"23 m ready\n24 p go 1\nend 25\n"),
            ],
            8,
        ),
        (
            Text(
                b"d ok\nt\nd bad\nt\nt\nd ok\nt\nt\nd ok\nt\nd ok\nt\nt\nd ok\nt\nt\nd ok\nt\nd ok\nt\nt\nd ok\nt\nt\n",
            ),
            [
                Text(b"2 c 20 13 1\n5 c 20 13 1\n8 c 30 14 1\n13 c e7 0 0\n16 c 30 13 1\n"),
                Text(b"21 c e7 0 0\n23 m ready\n24 p go 1\nend 25\n"),
            ],
            7,
        ),
    ];
    for (schedule, report, helpful) in cases {
        let text = written(rt.alloc(), &[schedule])?;
        assert_eq!(rt; helpful_turns(text.as_slice()), helpful);
        check_deployed(&rt, rt.alloc(), &[schedule, Text(b"end\n")], &report)?;
    }
    Ok(())
}

// The four replies come in the order opposite to that of their requests. The block is then held, and the dummy read of
// sector 15 raises the guest's interrupt.
#[test]
fn replies_in_another_order(rt: HostRuntime) -> Result<(), Fail> {
    let schedule = [
        OPEN,
        READ_3,
        Text(b"t\nn s 0\nn s 0\nn s 0\nn s 0\nn c 3\nn c 2\nn c 1\nn c 0\nt\nd ok\n"),
        Text(b"g line\ng r8 st\ng line\ng rd 256\ng r8 al\nend\n"),
    ];
    let report = [
        OPENED,
        ASKED_AT_28,
        Text(b"37 c 20 15 1\n38 p go 1\n39 o 01\n40 o 58\n41 o 00\n42 o "),
        Many(b"13", 512),
        Text(b"\n43 o 50\nend 44\n"),
    ];
    check_deployed(&rt, rt.alloc(), &schedule, &report)
}

// Request 0 is served twice, and so are two of the others; the one with tag 2 is lost. A reply that comes again changes
// nothing, and after four ticks the tag without an answer is asked again.
#[test]
fn frames_that_come_twice_or_never(rt: HostRuntime) -> Result<(), Fail> {
    let schedule = [
        OPEN,
        READ_3,
        Text(b"t\nn s 0 keep\nn s 0\nn s 0\nn ls 0\nn s 0\n"),
        Text(b"n c 0\nn c 0\nn c 0 keep\nn c 0\nn c 0\nk\nk\nk\nk\n"),
        Text(b"n s 0\nn c 0\nt\nd ok\ng r8 st\ng rd 256\nend\n"),
    ];
    let report = [
        OPENED,
        ASKED_AT_28,
        Text(b"42 a 2\n45 c 20 15 1\n46 p go 1\n47 o 58\n48 o "),
        Many(b"13", 512),
        Text(b"\nend 49\n"),
    ];
    check_deployed(&rt, rt.alloc(), &schedule, &report)
}

// READ DMA EXT of sectors 6 to 9, by a table of 768 bytes at 1000h and 1,280 at 2000h. The first two come from the
// image; the others stand behind it, so an own read of sectors 8 and 9 gets them from the disk.
#[test]
fn image_and_disk_scattered_by_dma(rt: HostRuntime) -> Result<(), Fail> {
    let schedule = [
        OPEN,
        Text(b"g mw 00000100 00100000000300000020000000050080\ng w32 00000100\n"),
        Text(b"g w8 sc 00\ng w8 sc 04\ng w8 ll 00\ng w8 ll 06\ng w8 lm 00\ng w8 lm 00\n"),
        Text(b"g w8 lh 00\ng w8 lh 00\ng w8 dv 40\ng w8 st 25\ng w8 bc 09\nt\n"),
        FETCH,
        Text(b"t\nt\nd ok\nt\nd ok\nt\nt\nt\nd ok\ng r8 bs\ng r8 st\ng line\n"),
        Text(b"g mr 00001000 768\ng mr 00002000 1280\nend\n"),
    ];
    let report = [
        OPENED,
        Text(b"35 a 0\n35 a 1\n35 a 2\n35 a 3\n44 p go 2\n45 c 20 8 2\n50 p go 2\n"),
        Text(b"51 c 20 15 1\n52 p go 1\n53 o 04\n54 o 50\n55 o 00\n56 o "),
        Many(b"16", 512),
        Many(b"17", 256),
        Text(b"\n57 o "),
        Many(b"17", 256),
        Many(b"ee", 1024),
        Text(b"\nend 58\n"),
    ];
    check_deployed(&rt, rt.alloc(), &schedule, &report)
}

// READ SECTOR(S) of sectors 3 and 4, by a guest that doesn't read Status: its interrupt still stands when the second
// block is there, so no second dummy read is wanted.
#[test]
fn an_interrupt_that_is_not_acknowledged(rt: HostRuntime) -> Result<(), Fail> {
    let schedule = [
        OPEN,
        Text(b"g w8 sc 02\ng w8 ll 03\ng w8 lm 00\ng w8 lh 00\ng w8 dv e0\ng w8 st 20\nt\n"),
        FETCH,
        Text(b"t\nd ok\ng rd 256\nt\ng line\ng r8 al\ng rd 256\ng r8 al\ng line\nend\n"),
    ];
    let report = [
        OPENED,
        ASKED_AT_28,
        Text(b"37 c 20 15 1\n38 p go 1\n39 o "),
        Many(b"13", 512),
        Text(b"\n40 p go 1\n41 o 01\n42 o 58\n43 o "),
        Many(b"14", 512),
        Text(b"\n44 o 50\n45 o 01\nend 46\n"),
    ];
    check_deployed(&rt, rt.alloc(), &schedule, &report)
}

// READ SECTOR(S) of sector 7, which is the image's last, and of sector 8, which stands on the disk and can't be read:
// the own read of it fails, and the guest sees UNC and the sector's number.
#[test]
fn a_sector_behind_the_image_that_cannot_be_read(rt: HostRuntime) -> Result<(), Fail> {
    let schedule = [
        OPEN,
        Text(b"g w8 sc 02\ng w8 ll 07\ng w8 lm 00\ng w8 lh 00\ng w8 dv e0\ng w8 st 20\nt\n"),
        FETCH,
        Text(b"t\nd ok\ng r8 st\ng rd 256\nt\nd bad\nt\nt\nd ok\ng r8 st\ng r8 er\ng r8 ll\nend\n"),
    ];
    let report = [
        OPENED,
        ASKED_AT_28,
        Text(b"37 c 20 15 1\n38 p go 1\n39 o 58\n40 o "),
        Many(b"17", 512),
        Text(b"\n41 c 20 8 1\n44 c 20 15 1\n45 p bad\n46 o 51\n47 o 40\n48 o 08\nend 49\n"),
    ];
    check_deployed(&rt, rt.alloc(), &schedule, &report)
}

// While nIEN masks the interrupt neither the line nor the bus master's bit shows it; the unmasking reaches the drive,
// whose dummy read raises both.
#[test]
fn an_interrupt_that_waits_for_its_unmasking(rt: HostRuntime) -> Result<(), Fail> {
    let schedule = [
        OPEN,
        Text(b"g w8 al 02\n"),
        READ_3,
        Text(b"t\n"),
        FETCH,
        Text(b"t\nd ok\ng line\ng r8 bs\ng w8 al 00\ng line\ng r8 bs\nend\n"),
    ];
    let report = [
        OPENED,
        Text(b"29 a 0\n29 a 1\n29 a 2\n29 a 3\n38 c 20 15 1\n39 p go 1\n"),
        Text(b"40 o 00\n41 o 00\n43 o 01\n44 o 04\nend 45\n"),
    ];
    check_deployed(&rt, rt.alloc(), &schedule, &report)
}

// WRITE SECTOR(S) of sector 9, behind the image, and FLUSH CACHE: the drive gets them, and each of its steps is one of the
// guest's. A Command write while it shows BSY or DRQ is ignored, and one at its interrupt acknowledges that. The flush
// fails: Status has ERR, and Error ABRT.
#[test]
fn commands_that_the_drive_gets(rt: HostRuntime) -> Result<(), Fail> {
    let schedule = [
        OPEN,
        Text(b"g w8 sc 01\ng w8 ll 09\ng w8 lm 00\ng w8 lh 00\ng w8 dv e0\ng w8 st 30\nt\n"),
        Text(b"g w8 st e7\ng r8 al\nd ok\ng w8 st e7\ng r8 al\ng wd "),
        Many(b"55", 512),
        Text(b"\ng r8 al\nd ok\ng line\ng w8 st e7\ng line\ng r8 al\nt\n"),
        Text(b"d bad\nd ok\ng r8 st\ng r8 er\nt\ng r8 al\nend\n"),
    ];
    let report = [
        OPENED,
        Text(
            b"28 c 30 9 1\n30 o 80\n31 p go 1\n33 o 58\n35 o 80\n36 p go 1\n37 o 01\n39 o 00\n40 o 80\n",
        ),
        Text(b"41 c e7 0 0\n42 p bad\n44 o 51\n45 o 04\n47 o 51\nend 48\n"),
    ];
    check_deployed(&rt, rt.alloc(), &schedule, &report)
}

// READ DMA of sector 9, by a table of 512 bytes at 1000h: the drive gets it once a walk is running, and its bus master is
// the guest's then.
#[test]
fn a_transfer_that_waits_for_its_walk(rt: HostRuntime) -> Result<(), Fail> {
    let schedule = [
        OPEN,
        Text(b"g mw 00000100 0010000000020080\ng w32 00000100\n"),
        Text(b"g w8 sc 01\ng w8 ll 09\ng w8 lm 00\ng w8 lh 00\ng w8 dv e0\ng w8 st c8\nt\n"),
        Text(b"g w8 bc 09\nt\ng r8 bs\nd ok\nd ok\ng r8 bs\ng r8 bc\ng r8 st\ng w8 bc 00\nt\n"),
        Text(b"g r8 bs\ng mr 00001000 512\nend\n"),
    ];
    let report = [
        OPENED,
        Text(
            b"32 c c8 9 1\n33 o 01\n34 p go 1\n35 p go 1\n36 o 04\n37 o 09\n38 o 50\n41 o 04\n42 o ",
        ),
        Many(b"ee", 512),
        Text(b"\nend 43\n"),
    ];
    check_deployed(&rt, rt.alloc(), &schedule, &report)
}

// The first command of the opening fails, and is begun again. The guest sees its own reset all the while, also where the
// drive shows DRQ.
#[test]
fn an_opening_whose_command_fails(rt: HostRuntime) -> Result<(), Fail> {
    let schedule = [
        Text(
            b"d ok\nt\nd bad\nt\nt\nd ok\ng r8 al\nt\nt\nd ok\nt\nd ok\nt\nt\nd ok\nt\nt\nd ok\nt\nd ok\nt\nt\n",
        ),
        Text(b"d ok\nt\nt\ng r8 st\nend\n"),
    ];
    let report = [
        Text(
            b"2 c 20 13 1\n5 c 20 13 1\n7 o 80\n9 c 30 14 1\n14 c e7 0 0\n17 c 30 13 1\n22 c e7 0 0\n",
        ),
        Text(b"24 m ready\n25 p go 1\n26 o 50\nend 27\n"),
    ];
    check_deployed(&rt, rt.alloc(), &schedule, &report)
}

// While the dummy read flies the guest sees its command at work: a Command write is ignored, the line is low, and a
// turn does nothing.
#[test]
fn accesses_and_a_turn_beside_a_dummy_read(rt: HostRuntime) -> Result<(), Fail> {
    let schedule = [
        OPEN,
        READ_3,
        Text(b"t\n"),
        FETCH,
        Text(b"t\ng r8 al\ng line\nt\ng w8 st e7\ng r8 bs\nd ok\n"),
        Text(b"g r8 al\ng line\ng r8 st\ng rd 256\ng r8 al\nend\n"),
    ];
    let report = [
        OPENED,
        ASKED_AT_28,
        Text(b"37 c 20 15 1\n38 o 80\n39 o 00\n42 o 00\n43 p go 1\n"),
        Text(b"44 o 58\n45 o 01\n46 o 58\n47 o "),
        Many(b"13", 512),
        Text(b"\n48 o 50\nend 49\n"),
    ];
    check_deployed(&rt, rt.alloc(), &schedule, &report)
}

// A turn at which the drive is at work does nothing: in the drive's own reset, at BSY of an own command that reads,
// writes or flushes, and at BSY and at DRQ of a command of the guest's.
#[test]
fn turns_while_the_drive_is_at_work(rt: HostRuntime) -> Result<(), Fail> {
    let schedule = [
        Text(b"t\nd ok\nt\nt\nd ok\nt\nt\nt\nd ok\nt\nt\nd ok\nt\nt\nt\nd ok\nt\n"),
        Text(b"t\nd ok\nt\nd ok\nt\nt\nd ok\nt\nt\n"),
        Text(b"g w8 sc 01\ng w8 ll 09\ng w8 lm 00\ng w8 lh 00\ng w8 dv e0\ng w8 st 20\n"),
        Text(b"t\nt\nd ok\nt\ng r8 st\ng rd 256\ng r8 al\nend\n"),
    ];
    let report = [
        Text(b"3 c 20 13 1\n7 c 30 14 1\n14 c e7 0 0\n18 c 30 13 1\n23 c e7 0 0\n"),
        Text(b"25 m ready\n26 p go 1\n33 c 20 9 1\n35 p go 1\n37 o 58\n38 o "),
        Many(b"ee", 512),
        Text(b"\n39 o 50\nend 40\n"),
    ];
    check_deployed(&rt, rt.alloc(), &schedule, &report)
}

// WRITE SECTOR(S) of sector 3, whose block is empty, and READ SECTOR(S) of sector 13, where the header stands, are
// marked and end with IDNF; a flush behind them is the drive's. WRITE SECTOR(S) of sector 13 finds the drive on the
// guest's side.
#[test]
fn commands_that_are_refused(rt: HostRuntime) -> Result<(), Fail> {
    let schedule = [
        OPEN,
        Text(b"g w8 sc 01\ng w8 ll 03\ng w8 lm 00\ng w8 lh 00\ng w8 dv e0\ng w8 st 30\n"),
        Text(b"g r8 al\nt\nd ok\ng line\ng r8 st\ng r8 er\n"),
        Text(b"g w8 sc 01\ng w8 ll 0d\ng w8 lm 00\ng w8 lh 00\ng w8 dv e0\ng w8 st 20\n"),
        Text(b"t\nd ok\ng r8 st\ng r8 er\ng w8 st e7\nt\nd ok\ng r8 st\n"),
        Text(b"g w8 sc 01\ng w8 ll 0d\ng w8 lm 00\ng w8 lh 00\ng w8 dv e0\ng w8 st 30\n"),
        Text(b"t\nd ok\ng r8 st\ng r8 er\nend\n"),
    ];
    let report = [
        OPENED,
        Text(b"27 m reserved\n28 o 80\n29 c 20 15 1\n30 p go 1\n31 o 01\n32 o 51\n33 o 10\n"),
        Text(b"39 m reserved\n40 c 20 15 1\n41 p go 1\n42 o 51\n43 o 10\n"),
        Text(b"45 c e7 0 0\n46 p go 1\n47 o 50\n"),
        Text(b"53 m reserved\n54 c 20 15 1\n55 p go 1\n56 o 51\n57 o 10\nend 58\n"),
    ];
    check_deployed(&rt, rt.alloc(), &schedule, &report)
}

// A stray request with tag 1 and sector 4, which no client sends. The server's reply to it is honest, and isn't the
// sectors of its tag, so the client doesn't take it.
#[test]
fn a_reply_whose_sectors_are_not_its_tags(rt: HostRuntime) -> Result<(), Fail> {
    let schedule = [
        OPEN,
        READ_3,
        Text(b"t\nn y 02000000000202000000000188a2100000010100000000014000022404"),
        Text(b"00000000000000\nn c 0\n"),
        Text(b"n s 0\nn s 0\nn s 0\nn s 0\nn c 3\nn c 2\nn c 1\nn c 0\nt\nd ok\n"),
        Text(b"g line\ng r8 st\ng line\ng rd 256\ng r8 al\nend\n"),
    ];
    let report = [
        OPENED,
        ASKED_AT_28,
        Text(b"39 c 20 15 1\n40 p go 1\n41 o 01\n42 o 58\n43 o 00\n44 o "),
        Many(b"13", 512),
        Text(b"\n45 o 50\nend 46\n"),
    ];
    check_deployed(&rt, rt.alloc(), &schedule, &report)
}

// A frame that no server sent and that has all that a reply to tag 0 has. The client can't tell it from one, and the
// report marks it.
#[test]
fn a_forged_reply_is_marked(rt: HostRuntime) -> Result<(), Fail> {
    let schedule = [
        OPEN,
        READ_3,
        Text(b"t\nn x 02000000000102000000000288a2180000010100000000004000025000"),
        Text(b"00000000000000"),
        Many(b"99", 1024),
        Text(b"\nend\n"),
    ];
    let report = [OPENED, ASKED_AT_28, Text(b"29 m forged\nend 30\n")];
    check_deployed(&rt, rt.alloc(), &schedule, &report)
}

// What a deployment leaves is a disk with its header: no other one begins there afresh, and this one goes on. It then
// reads the header and the bitmap, and writes nothing.
#[test]
fn a_deployment_begins_once(rt: HostRuntime) -> Result<(), Fail> {
    let (status, host) = deploy(rt.alloc(), "fresh", &DISK, &[OPEN, Text(b"end\n")], &[])?;
    assert_eq!(rt; status, Status::Done);
    let out = host.contents(Role::Out);
    let (status, again) = deploy(rt.alloc(), "fresh", out, &[Text(b"end\n")], &[])?;
    assert_eq!(rt; status, Status::Unsuitable(Why::AlreadyBegun));
    assert_eq!(rt; status.exit_code(), 2);
    assert_eq!(rt; again.contents(Role::Report), OLD_REPORT);
    let (status, _) = deploy(rt.alloc(), "resume", &DISK, &[Text(b"end\n")], &[])?;
    assert_eq!(rt; status, Status::Unsuitable(Why::NotBegun));
    let reopening = [Text(b"d ok\nt\nd ok\nt\nt\nd ok\nt\nt\nend\n")];
    let (status, resumed) = deploy(rt.alloc(), "resume", out, &reopening, &[])?;
    assert_eq!(rt; status, Status::Done);
    assert_eq!(rt;
        resumed.contents(Role::Report),
        b"2 c 20 13 1\n5 c 20 14 1\n7 m ready\n8 p go 1\nend 9\n".as_slice()
    );
    assert_eq!(rt; resumed.contents(Role::Out), out);
    Ok(())
}

// A disk of 11 sectors has just room for the image and what is reserved. A step of the drive isn't the guest's as long
// as the monitor opens, and gives no line.
#[test]
fn the_smallest_disk_of_a_deployment(rt: HostRuntime) -> Result<(), Fail> {
    let disk = &DISK[..11 * 512];
    let (status, host) = deploy(rt.alloc(), "fresh", disk, &[Text(b"d ok\nend\n")], &[])?;
    assert_eq!(rt; status, Status::Done);
    assert_eq!(rt; host.contents(Role::Report), b"end 2\n".as_slice());
    assert_eq!(rt; host.contents(Role::Out), disk);
    Ok(())
}

// The calls, counted by hand. 0 to 3: begin and length of Image, then of Disk. 4: the header's sector. 5 to 7: begin of
// Schedule, Report and Out. 8 to 23: the disk's 16 sectors. 24: the schedule's one block. 25: the lines that wait, before
// the server looks at a request. 26: the server reads the image for it. No line of that event is written.
#[test]
fn an_image_that_the_server_cannot_read(rt: HostRuntime) -> Result<(), Fail> {
    let schedule = [OPEN, READ_3, Text(b"t\nn s 0\nend\n")];
    let (status, host) = deploy(rt.alloc(), "fresh", &DISK, &schedule, &[26])?;
    assert_eq!(rt; status, Status::ReadFault(Role::Image));
    assert_eq!(rt; status.exit_code(), 4);
    let report = written(rt.alloc(), &[OPENED, ASKED_AT_28])?;
    assert_eq!(rt; host.contents(Role::Report), report.as_slice());
    assert_eq!(rt;
        host.contents(Role::Console),
        b"bmcast: cannot read Image\n".as_slice()
    );
    Ok(())
}

// By the same count. A report that can't be written keeps nothing of the lines that waited.
#[test]
fn a_report_that_cannot_be_written_before_the_server_reads(rt: HostRuntime) -> Result<(), Fail> {
    let schedule = [OPEN, READ_3, Text(b"t\nn s 0\nend\n")];
    let (status, host) = deploy(rt.alloc(), "fresh", &DISK, &schedule, &[25])?;
    assert_eq!(rt; status, Status::WriteFault(Role::Report));
    assert_eq!(rt; host.contents(Role::Report), b"".as_slice());
    Ok(())
}

// Where the header's sector can't be read nothing is begun.
#[test]
fn a_header_that_cannot_be_read(rt: HostRuntime) -> Result<(), Fail> {
    let (status, host) = deploy(rt.alloc(), "fresh", &DISK, &[Text(b"end\n")], &[4])?;
    assert_eq!(rt; status, Status::ReadFault(Role::Disk));
    assert_eq!(rt; host.contents(Role::Report), OLD_REPORT);
    Ok(())
}
