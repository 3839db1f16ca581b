use super::*;
use arrayvec::ArrayVec;
use std::test::Fail;

// By hand from the table of events: a line, and what it says. One space stands between words, a byte has two lower-case
// hexadecimal digits, and an address eight, the most significant first.
const REGISTERS: [(&[u8], Event); 21] = [
    (b"g r8 er", Event::Read8(Reg::Error)),
    (b"g r8 sc", Event::Read8(Reg::Count)),
    (b"g r8 ll", Event::Read8(Reg::Low)),
    (b"g r8 lm", Event::Read8(Reg::Mid)),
    (b"g r8 lh", Event::Read8(Reg::High)),
    (b"g r8 dv", Event::Read8(Reg::Device)),
    (b"g r8 st", Event::Read8(Reg::Status)),
    (b"g r8 al", Event::Read8(Reg::Alternate)),
    (b"g r8 bc", Event::Read8(Reg::BusCommand)),
    (b"g r8 bs", Event::Read8(Reg::BusStatus)),
    (b"g w8 er 00", Event::Write8(Reg::Error, 0)),
    (b"g w8 sc 01", Event::Write8(Reg::Count, 1)),
    (b"g w8 ll 0a", Event::Write8(Reg::Low, 10)),
    (b"g w8 lm a0", Event::Write8(Reg::Mid, 160)),
    (b"g w8 lh 9f", Event::Write8(Reg::High, 159)),
    (b"g w8 lh 7f", Event::Write8(Reg::High, 127)),
    (b"g w8 dv e0", Event::Write8(Reg::Device, 224)),
    (b"g w8 st 20", Event::Write8(Reg::Status, 32)),
    (b"g w8 al ff", Event::Write8(Reg::Alternate, 255)),
    (b"g w8 bc 09", Event::Write8(Reg::BusCommand, 9)),
    (b"g w8 bs 06", Event::Write8(Reg::BusStatus, 6)),
];

// The same of the guest's other accesses, but for those that write bytes.
const ACCESSES: [(&[u8], Event); 17] = [
    (b"g rd 1", Event::ReadWords(1)),
    (b"g rd 10", Event::ReadWords(10)),
    (b"g rd 99", Event::ReadWords(99)),
    (b"g rd 100", Event::ReadWords(100)),
    (b"g rd 255", Event::ReadWords(255)),
    (b"g rd 256", Event::ReadWords(256)),
    (b"g r32", Event::ReadPointer),
    (b"g w32 00000000", Event::WritePointer(0)),
    (b"g w32 00000100", Event::WritePointer(256)),
    (b"g w32 12345678", Event::WritePointer(0x1234_5678)),
    (b"g w32 fedcba98", Event::WritePointer(0xfedc_ba98)),
    (b"g w32 ffffffff", Event::WritePointer(u32::MAX)),
    (b"g mr 00001000 768", Event::ReadMemory(4096, 768)),
    (b"g mr 00000000 1", Event::ReadMemory(0, 1)),
    (b"g mr ffffffff 2000", Event::ReadMemory(u32::MAX, 2000)),
    (b"g mr 0badcafe 1999", Event::ReadMemory(0x0bad_cafe, 1999)),
    (b"g line", Event::Line),
];

// The same of what isn't the guest's.
const OTHERS: [(&[u8], Event); 13] = [
    (b"d ok", Event::Drive(Step::Good)),
    (b"d bad", Event::Drive(Step::Bad)),
    (b"d put 0", Event::Destage(0)),
    (b"d put 9", Event::Destage(9)),
    (b"d put 10", Event::Destage(10)),
    (b"d put 63", Event::Destage(63)),
    (b"cut", Event::Cut),
    (b"", Event::Remark),
    (b"#", Event::Remark),
    (b"# note", Event::Remark),
    (b"#\xff\r", Event::Remark),
    (b"#g r8 st", Event::Remark),
    (b"end", Event::End),
];

// The same of the network, but for stray frames, and of time.
const NETWORK: [(&[u8], Event); 12] = [
    (b"n s 0", Event::Deliver(Way::ToServer, 0, false)),
    (b"n s 9 keep", Event::Deliver(Way::ToServer, 9, true)),
    (b"n s 63", Event::Deliver(Way::ToServer, 63, false)),
    (b"n c 0 keep", Event::Deliver(Way::ToClient, 0, true)),
    (b"n c 10", Event::Deliver(Way::ToClient, 10, false)),
    (b"n c 63 keep", Event::Deliver(Way::ToClient, 63, true)),
    (b"n ls 0", Event::Lose(Way::ToServer, 0)),
    (b"n ls 63", Event::Lose(Way::ToServer, 63)),
    (b"n lc 7", Event::Lose(Way::ToClient, 7)),
    (b"n lc 62", Event::Lose(Way::ToClient, 62)),
    (b"t", Event::Turn),
    (b"k", Event::Tick),
];

#[test]
fn events_of_lines(rt: HostRuntime) {
    for (line, event) in REGISTERS {
        assert_eq!(rt; read_line(line), Ok(event), "at {line:?}");
    }
    for (line, event) in ACCESSES {
        assert_eq!(rt; read_line(line), Ok(event), "at {line:?}");
    }
    for (line, event) in OTHERS {
        assert_eq!(rt; read_line(line), Ok(event), "at {line:?}");
    }
    for (line, event) in NETWORK {
        assert_eq!(rt; read_line(line), Ok(event), "at {line:?}");
    }
}

#[test]
fn written_words(rt: HostRuntime) {
    // A line, and the bytes that it writes to Data.
    let cases: [(&[u8], &[u8]); 3] = [
        (b"g wd 0100", &[1, 0]),
        (b"g wd 34127856", &[0x34, 0x12, 0x78, 0x56]),
        (b"g wd ffff", &[255, 255]),
    ];
    for (line, bytes) in cases {
        let event = Event::WriteWords(list(bytes));
        assert_eq!(rt; read_line(line), Ok(event), "at {line:?}");
    }
}

#[test]
fn written_memory(rt: HostRuntime) {
    // A line; the address and the bytes that it writes there.
    let cases: [(&[u8], u32, &[u8]); 4] = [
        (b"g mw 00000100 0a", 256, &[10]),
        (b"g mw ffffffff 0af0", u32::MAX, &[10, 240]),
        (
            b"g mw 00000100 0010000000020080",
            256,
            &[0, 16, 0, 0, 0, 2, 0, 128],
        ),
        (b"g mw 00000000 000000", 0, &[0, 0, 0]),
    ];
    for (line, address, bytes) in cases {
        let event = Event::WriteMemory(address, list(bytes));
        assert_eq!(rt; read_line(line), Ok(event), "at {line:?}");
    }
}

#[test]
fn stray_frames(rt: HostRuntime) {
    // A line; the way at whose end its frame comes, `x` to the client and `y` to the server, and the frame's bytes.
    let cases: [(&[u8], Way, &[u8]); 4] = [
        (b"n x 00", Way::ToClient, &[0]),
        (b"n y ff", Way::ToServer, &[255]),
        (b"n x 0a0b", Way::ToClient, &[10, 11]),
        (b"n y 88a2f0", Way::ToServer, &[136, 162, 240]),
    ];
    for (line, way, bytes) in cases {
        let event = Frame::from_slice(bytes).map(|frame| Event::Stray(way, frame));
        assert_eq!(rt; read_line(line).ok(), event, "at {line:?}");
    }
}

fn list<const N: usize>(bytes: &[u8]) -> Bytes<N> {
    let mut all = Bytes::new();
    for &byte in bytes {
        all.push(byte);
    }
    all
}

// Lines that have no event's shape, by hand from the same table: of registers.
const FORMLESS_REGISTERS: [&[u8]; 22] = [
    b"g r8 xx",
    b"g r8 ST",
    b"g r8 s",
    b"g r8 ",
    b"g r8",
    b"g r8 st ",
    b"g r8  st",
    b" g r8 st",
    b"g w8 st FF",
    b"g w8 st 2",
    b"g w8 st 020",
    b"g w8 st 2g",
    b"g w8 st",
    b"g w8 st  20",
    b"g w8 st 20 ",
    b"g w8 st20",
    b"g w8 er 0A",
    b"g w8 er 0x",
    b"g r8 s\xff",
    b"g r8 er\r",
    b"G r8 er",
    b"g\tr8 er",
];

// The same of words.
const FORMLESS_WORDS: [&[u8]; 23] = [
    b"g rd 00",
    b"g rd 01",
    b"g rd +5",
    b"g rd -5",
    b"g rd 5 ",
    b"g rd  5",
    b"g rd 5a",
    b"g rd ",
    b"g rd 1.0",
    b"g rd 0x10",
    b"g rd",
    b"g wd",
    b"g wd ",
    b"g wd 0",
    b"g wd 01",
    b"g wd 012",
    b"g wd 010203",
    b"g wd 01020",
    b"g wd 0A00",
    b"g wd 00g0",
    b"g wd 0100 ",
    b"g wd  0100",
    b"g wd 01 00",
];

// The same of the pointer, the guest's memory and the interrupt line.
const FORMLESS_MEMORY: [&[u8]; 37] = [
    b"g r32 ",
    b"g r32 0",
    b"g r3",
    b"g w32",
    b"g w32 ",
    b"g w32 0000010",
    b"g w32 000000100",
    b"g w32 0000010A",
    b"g w32 00000x00",
    b"g w32 00000100 ",
    b"g w32  00000100",
    b"g mr",
    b"g mr ",
    b"g mr 00001000",
    b"g mr 00001000 ",
    b"g mr 0001000 5",
    b"g mr 000001000 5",
    b"g mr 00001000 05",
    b"g mr 00001000  5",
    b"g mr 00001000 5 ",
    b"g mr 0000100A 5",
    b"g mr 0000100A 2001",
    b"g mr 00001000 -1",
    b"g mr 00001000 ff",
    b"g mw",
    b"g mw 00000100",
    b"g mw 00000100 ",
    b"g mw 00000100 0",
    b"g mw 00000100 012",
    b"g mw 0000100 01",
    b"g mw 00000100 0A",
    b"g mw 00000100  01",
    b"g mw 00000100 01 ",
    b"g mw 0000010001",
    b"g line ",
    b"g lin",
    b"g line st",
];

// The same of what isn't the guest's.
const FORMLESS_OTHERS: [&[u8]; 24] = [
    b"d ok ",
    b"d bad ",
    b"d ba",
    b"d put",
    b"d put ",
    b"d put 00",
    b"d put 063",
    b"d put -1",
    b"d put 1 ",
    b"cut ",
    b"cu",
    b"end ",
    b"end 1",
    b"END",
    b"g",
    b"d",
    b"t ",
    b"t 1",
    b"T",
    b"k ",
    b"kk",
    b" k",
    b"D ok",
    b" # note",
];

// The same of the network.
const FORMLESS_NETWORK: [&[u8]; 45] = [
    b"n",
    b"n ",
    b"n s",
    b"n s ",
    b"n s0",
    b"n s 01",
    b"n s 00",
    b"n s -1",
    b"n s a",
    b"n s 1 ",
    b"n s  1",
    b"n s keep",
    b"n s  keep",
    b"n s 01 keep",
    b"n s 064 keep",
    b"n s 1  keep",
    b"n s 1keep",
    b"n s 1 kept",
    b"n s 1 Keep",
    b"n s 1 keep ",
    b"n s 1 keep keep",
    b"n s 64 keep keep",
    b"n c 1 kee",
    b"n c 63 keeps",
    b"n c 0x10",
    b"n ls",
    b"n ls ",
    b"n ls0",
    b"n ls 1 keep",
    b"n ls 64 keep",
    b"n lc 01",
    b"n l 1",
    b"n lx 00",
    b"n x",
    b"n x ",
    b"n x 0",
    b"n x 000",
    b"n x 0A",
    b"n x 00 ",
    b"n x  00",
    b"n y 0g",
    b"n y 00 keep",
    b"n z 00",
    b"N s 1",
    b"n\ts 1",
];

#[test]
fn lines_of_no_form(rt: HostRuntime) {
    for line in FORMLESS_REGISTERS {
        assert_eq!(rt; read_line(line), Err(LineFault::Form), "at {line:?}");
    }
    for line in FORMLESS_WORDS {
        assert_eq!(rt; read_line(line), Err(LineFault::Form), "at {line:?}");
    }
    for line in FORMLESS_MEMORY {
        assert_eq!(rt; read_line(line), Err(LineFault::Form), "at {line:?}");
    }
    for line in FORMLESS_OTHERS {
        assert_eq!(rt; read_line(line), Err(LineFault::Form), "at {line:?}");
    }
    for line in FORMLESS_NETWORK {
        assert_eq!(rt; read_line(line), Err(LineFault::Form), "at {line:?}");
    }
}

#[test]
fn numbers_out_of_range(rt: HostRuntime) {
    // The range is 1 to 256, 1 to 2,000, and 0 to 63 for each place.
    let lines: [&[u8]; 25] = [
        b"g rd 0",
        b"g rd 257",
        b"g rd 258",
        b"g rd 999",
        b"g rd 4294967297",
        b"g rd 100000000000000000000000000001",
        b"g mr 00001000 0",
        b"g mr 00001000 2001",
        b"g mr ffffffff 10000",
        b"g mr 00000000 4294967296",
        b"g mr 00000000 18446744073709551617",
        b"d put 64",
        b"d put 100",
        b"d put 4294967296",
        b"d put 340282366920938463463374607431768211456",
        b"n s 64",
        b"n s 64 keep",
        b"n s 18446744073709551616",
        b"n c 64",
        b"n c 100 keep",
        b"n c 99999999999999999999 keep",
        b"n ls 64",
        b"n ls 4294967296",
        b"n lc 64",
        b"n lc 99999999999999999999",
    ];
    for line in lines {
        assert_eq!(rt; read_line(line), Err(LineFault::Number), "at {line:?}");
    }
}

#[test]
fn longest_writes(rt: HostRuntime) {
    // 256 words and 2,000 bytes of memory are the most that a line can write, and 1,060 bytes the most of a frame.
    let mut line = [b'a'; 4016];
    line[..5].copy_from_slice(b"g wd ");
    let words = Event::WriteWords(list(&[0xaa; 512]));
    assert_eq!(rt; read_line(&line[..1029]), Ok(words));
    assert_eq!(rt; read_line(&line[..1033]), Err(LineFault::Form));
    line[..14].copy_from_slice(b"g mw 00000000 ");
    let memory = Event::WriteMemory(0, list(&[0xaa; 2000]));
    assert_eq!(rt; read_line(&line[..4014]), Ok(memory));
    assert_eq!(rt; read_line(&line), Err(LineFault::Form));
    line[..14].copy_from_slice(b"n y aaaaaaaaaa");
    let frame = Frame::from_slice(&[0xaa; 1060]).map(|frame| Event::Stray(Way::ToServer, frame));
    assert_eq!(rt; read_line(&line[..2124]).ok(), frame);
    assert_eq!(rt; read_line(&line[..2126]), Err(LineFault::Form));
}

#[test]
fn long_lines(rt: HostRuntime) {
    // The start of a line whose other bytes are 0; its fault where it has 4,096 bytes, the most that a line may have.
    for (start, fault) in [
        (b"# note", None),
        (b"g rd 1", Some(LineFault::Number)),
        (b"g r8 0", Some(LineFault::Form)),
        (b"g wd 0", Some(LineFault::Form)),
        (b"n lc 1", Some(LineFault::Number)),
        (b"n s 0k", Some(LineFault::Form)),
        (b"n x 00", Some(LineFault::Form)),
    ] {
        let mut line = [b'0'; LINE_BYTES + 1];
        line[..start.len()].copy_from_slice(start);
        assert_eq!(rt; read_line(&line[..LINE_BYTES]).err(), fault, "at {start:?}");
        assert_eq!(rt; read_line(&line), Err(LineFault::LongLine), "at {start:?}");
    }
}

// By hand from the table of a report's lines: the number of the event's line, the item, its event's answer, and the
// line.
const REPORTED: [(u32, Item, &[u8], &[u8]); 14] = [
    (8, Item::Answer, &[0x80], b"8 o 80\n"),
    (13, Item::Answer, &[0x0e, 0xe0, 0xff], b"13 o 0ee0ff\n"),
    (7, Item::Command(0x20, 3, 1), &[], b"7 c 20 3 1\n"),
    (100, Item::Command(0xe7, 0, 0), &[1], b"100 c e7 0 0\n"),
    (1, Item::Go(1), &[], b"1 p go 1\n"),
    (45, Item::Bad, &[], b"45 p bad\n"),
    (28, Item::Asked(0), &[], b"28 a 0\n"),
    (7, Item::Asked(u32::MAX), &[], b"7 a 4294967295\n"),
    (7, Item::Ready, &[], b"7 m ready\n"),
    (16, Item::Left, &[0], b"16 m gone\n"),
    (9, Item::Reserved, &[], b"9 m reserved\n"),
    (33, Item::Forged, &[], b"33 m forged\n"),
    (
        u32::MAX - 1,
        Item::Go(u32::MAX),
        &[],
        b"4294967294 p go 4294967295\n",
    ),
    (
        u32::MAX - 1,
        Item::Command(255, u64::MAX, u32::MAX),
        &[],
        b"4294967294 c ff 18446744073709551615 4294967295\n",
    ),
];

#[test]
fn lines_of_a_report(rt: HostRuntime) {
    let mut into = ArrayVec::new();
    for (number, item, bytes, line) in REPORTED {
        write_item(number, &item, bytes, &mut into);
        assert_eq!(rt; into.as_slice(), line, "at {number} {item:?}");
    }
}

#[test]
fn last_lines_of_a_report(rt: HostRuntime) {
    // The number of the line `end`, and the report's last line.
    let cases: [(u32, &[u8]); 2] = [(16, b"end 16\n"), (u32::MAX - 1, b"end 4294967294\n")];
    let mut into = ArrayVec::new();
    for (number, line) in cases {
        write_end(number, &mut into);
        assert_eq!(rt; into.as_slice(), line, "at {number}");
    }
}

#[test]
fn longest_answer(rt: HostRuntime) {
    // 2,000 bytes are the longest answer of an event.
    let mut into = ArrayVec::new();
    write_item(4294967294, &Item::Answer, &[0xa5; 2000], &mut into);
    assert_eq!(rt; into.len(), 4014);
    assert!(rt; into.starts_with(b"4294967294 o a5a5"));
    assert!(rt; into.ends_with(b"a5a5\n"));
}

#[test]
fn cleared(rt: HostRuntime) -> Result<(), Fail> {
    let mut emitted = Emitted::new();
    emitted.items.try_push(Item::Go(1))?;
    emitted.bytes.try_push(7)?;
    emitted.clear();
    assert!(rt; emitted.items.is_empty());
    assert!(rt; emitted.bytes.is_empty());
    Ok(())
}
