use super::*;
use std::alloc::Global;
use std::test::Fail;

// What is required, to which each row of the tables of numbers adds its words.
const REQUIRED: &str = "run --image a --disk b --schedule c --report d --out e --mode fresh --id 1";

// The numbers without any option, and none at all.
const DEFAULTS: Option<[u64; 6]> = Some([16, 4, 16, 8, 1_048_576, 8]);

const REFUSED: Option<[u64; 6]> = None;

// By hand from the table of options: block, gap, window, limit, memory and pool of each command line. Two spaces in a
// row stand round an empty word.
const BLOCKS: [(&str, Option<[u64; 6]>); 9] = [
    (" --block 8", Some([8, 4, 16, 8, 1_048_576, 8])),
    (" --block=16", DEFAULTS),
    (" --block 32", Some([32, 4, 16, 8, 1_048_576, 8])),
    (" --block=64", Some([64, 4, 16, 8, 1_048_576, 8])),
    (" --block 24", REFUSED),
    (" --block 7", REFUSED),
    (" --block 65", REFUSED),
    (" --block 128", REFUSED),
    (" --block 0", REFUSED),
];

// The same with a gap, in each form of a value.
const GAPS: [(&str, Option<[u64; 6]>); 21] = [
    (" --gap 0", Some([16, 0, 16, 8, 1_048_576, 8])),
    (" --gap=65535", Some([16, 65_535, 16, 8, 1_048_576, 8])),
    (" --gap 65536", REFUSED),
    (" --gap=", REFUSED),
    (" --gap ", REFUSED),
    (" --gap", REFUSED),
    (" --gap=-1", REFUSED),
    (" --gap -1", REFUSED),
    (" --gap 05", REFUSED),
    (" --gap 00", REFUSED),
    (" --gap +5", REFUSED),
    (" --gap 5a", REFUSED),
    (" --gap 0x5", REFUSED),
    (" --gap 5 ", REFUSED),
    (" --gap  5", REFUSED),
    (" --gap==5", REFUSED),
    (" --gap= 5", REFUSED),
    (" --gap 5 --gap 5", REFUSED),
    (" --gap=5 --gap=5", REFUSED),
    (" --gap 5 --gap=5", REFUSED),
    (" --gap 99999999999999999999999999", REFUSED),
];

// The same with the other numbers.
const SIZES: [(&str, Option<[u64; 6]>); 18] = [
    (" --window 0", REFUSED),
    (" --window 1", Some([16, 4, 1, 8, 1_048_576, 8])),
    (" --window 1024", Some([16, 4, 1024, 8, 1_048_576, 8])),
    (" --window 1025", REFUSED),
    (" --limit 0", Some([16, 4, 16, 0, 1_048_576, 8])),
    (" --limit 65535", Some([16, 4, 16, 65_535, 1_048_576, 8])),
    (" --limit 65536", REFUSED),
    (" --memory 4095", REFUSED),
    (" --memory 4096", Some([16, 4, 16, 8, 4096, 8])),
    (" --memory 6144", REFUSED),
    (" --memory 0", REFUSED),
    (" --memory 16777216", Some([16, 4, 16, 8, 16_777_216, 8])),
    (" --memory 16781312", REFUSED),
    (" --pool 3", REFUSED),
    (" --pool=4", Some([16, 4, 16, 8, 1_048_576, 4])),
    (" --pool 16", Some([16, 4, 16, 8, 1_048_576, 16])),
    (" --pool 17", REFUSED),
    (
        " --pool=5 --memory 8192 --limit 7 --window=3 --gap 2 --block=8",
        Some([8, 2, 3, 7, 8192, 5]),
    ),
];

// The same with words that are no option, or one that stands already.
const NO_OPTIONS: [(&str, Option<[u64; 6]>); 14] = [
    ("", DEFAULTS),
    (" ", REFUSED),
    (" --", REFUSED),
    (" -h", REFUSED),
    (" --help", REFUSED),
    (" --help 1", REFUSED),
    (" extra", REFUSED),
    (" --gap 5 extra", REFUSED),
    (" --bloc 16", REFUSED),
    (" --Block 16", REFUSED),
    (" -block 16", REFUSED),
    (" block 16", REFUSED),
    (" block=16", REFUSED),
    (" --id 1", REFUSED),
];

#[test]
fn blocks_of_command_lines(rt: HostRuntime) -> Result<(), Fail> {
    for (tail, numbers) in BLOCKS {
        let answer = numbers_behind(rt.alloc(), tail)?;
        assert_eq!(rt; answer, numbers, "at {tail:?}");
    }
    Ok(())
}

#[test]
fn gaps_of_command_lines(rt: HostRuntime) -> Result<(), Fail> {
    for (tail, numbers) in GAPS {
        let answer = numbers_behind(rt.alloc(), tail)?;
        assert_eq!(rt; answer, numbers, "at {tail:?}");
    }
    Ok(())
}

#[test]
fn sizes_of_command_lines(rt: HostRuntime) -> Result<(), Fail> {
    for (tail, numbers) in SIZES {
        let answer = numbers_behind(rt.alloc(), tail)?;
        assert_eq!(rt; answer, numbers, "at {tail:?}");
    }
    Ok(())
}

#[test]
fn words_that_are_no_option(rt: HostRuntime) -> Result<(), Fail> {
    for (tail, numbers) in NO_OPTIONS {
        let answer = numbers_behind(rt.alloc(), tail)?;
        assert_eq!(rt; answer, numbers, "at {tail:?}");
    }
    Ok(())
}

// By hand from the word rule: a command line; its five files, its mode and its number.
const FILES: [(&str, Option<([&str; 5], Mode, u64)>); 5] = [
    (
        "run --image a --disk b --schedule c --report d --out e --mode fresh --id 1",
        Some((["a", "b", "c", "d", "e"], Mode::Fresh, 1)),
    ),
    (
        "run --image=a --disk=b --schedule=c --report=d --out=e --mode=resume --id=0",
        Some((["a", "b", "c", "d", "e"], Mode::Resume, 0)),
    ),
    (
        "run --id=18446744073709551615 --mode resume --out e --report d --schedule c --disk b --image a",
        Some((["a", "b", "c", "d", "e"], Mode::Resume, u64::MAX)),
    ),
    (
        "run --image=a=b --disk=b= --schedule c=d --report == --out=e --mode fresh --id 1",
        Some((["a=b", "b=", "c=d", "==", "e"], Mode::Fresh, 1)),
    ),
    (
        "run --image run --disk fresh --schedule image --report b--id --out e- --mode fresh --id 1",
        Some((["run", "fresh", "image", "b--id", "e-"], Mode::Fresh, 1)),
    ),
];

#[test]
fn files_of_command_lines(rt: HostRuntime) -> Result<(), Fail> {
    for (line, files) in FILES {
        let words = words_of(rt.alloc(), line)?;
        let answer = read_options(words.as_slice()).map(|o| files_of(&o));
        assert_eq!(rt; answer, files, "at {line:?}");
    }
    Ok(())
}

// The same of what is no command line of `run`: a name for two files, an option twice, a value that is none, an option
// that lacks, and another command.
const NO_LINES: [&str; 21] = [
    "run --image a --disk b --schedule c --report d --out e --mode fresh --id=18446744073709551616",
    "run --image a --disk b --schedule c --report d --out a --mode fresh --id 1",
    "run --image a --disk a --schedule c --report d --out e --mode fresh --id 1",
    "run --image a --disk b --schedule c --report=c --out e --mode fresh --id 1",
    "run --image a --disk b --schedule c --report e --out e --mode fresh --id 1",
    "run --image a --image f --disk b --schedule c --report d --out e --mode fresh --id 1",
    "run --image --disk b --schedule c --report d --out e --mode fresh --id 1",
    "run --image -a --disk b --schedule c --report d --out e --mode fresh --id 1",
    "run --image=- --disk b --schedule c --report d --out e --mode fresh --id 1",
    "run --image  --disk b --schedule c --report d --out e --mode fresh --id 1",
    "run --disk b --schedule c --report d --out e --mode fresh --id 1",
    "run --image a --schedule c --report d --out e --mode fresh --id 1",
    "run --image a --disk b --report d --out e --mode fresh --id 1",
    "run --image a --disk b --schedule c --out e --mode fresh --id 1",
    "run --image a --disk b --schedule c --report d --mode fresh --id 1",
    "run --image a --disk b --schedule c --report d --out e --id 1",
    "run --image a --disk b --schedule c --report d --out e --mode fresh",
    "run --image a --disk b --schedule c --report d --out e --mode Fresh --id 1",
    "show --image a --disk b --schedule c --report d --out e --mode fresh --id 1",
    "--image a --disk b --schedule c --report d --out e --mode fresh --id 1 run",
    "run",
];

#[test]
fn lines_that_are_refused(rt: HostRuntime) -> Result<(), Fail> {
    for line in NO_LINES {
        let words = words_of(rt.alloc(), line)?;
        assert!(rt; read_options(words.as_slice()).is_none(), "at {line:?}");
    }
    assert!(rt; read_options(&[]).is_none());
    Ok(())
}

// The numbers of the command line that adds these words to what is required.
fn numbers_behind(alloc: Global, tail: &str) -> Result<Option<[u64; 6]>, Fail> {
    let line = format!(in alloc; "{REQUIRED}{tail}")?;
    let words = words_of(alloc, line.as_str())?;
    Ok(read_options(words.as_slice()).map(|o| numbers_of(&o)))
}

fn numbers_of(o: &Options<'_>) -> [u64; 6] {
    [o.block, o.gap, o.window, o.limit, o.memory, o.pool]
}

fn files_of<'a>(o: &Options<'a>) -> ([&'a str; 5], Mode, u64) {
    ([o.image, o.disk, o.schedule, o.report, o.out], o.mode, o.id)
}

// The words of a line, which stand between its spaces.
fn words_of(alloc: Global, line: &str) -> Result<Vec<String>, Fail> {
    let mut words = Vec::new(alloc);
    for word in line.split(' ') {
        words.push(String::from_str(alloc, word)?)?;
    }
    Ok(words)
}
