//! The options that the pairs give.

ghost use Rattle.std.specs.Prelude.{◌≡◌, ◌≢◌, ◌∷◌, [], ℕ, IfSome, IfNone, MatchOption, not};
ghost use Rattle.std.specs.List.{list_any};
ghost use Rattle.std.specs.Str.{bytes_eq};
ghost use Rattle.std.specs.Option.{option_copied, option_map};
ghost use Rattle.run_words.specs.declared.Mode.{Mode as ModeOf};
ghost use Rattle.run_words.specs.Pairs.{texts, pairs};
ghost use Rattle.run_words.specs.Options.{Choice, FileNames, Sizes as SizesOf, seen, mode_text};
ghost use Rattle.run_words.specs.Options.{are_different as are_different_of, SaysBlock, SaysMemory};
ghost use Rattle.run_words.specs.Options.{Says, SaysPairs, SaysFiles, SaysSizes};

use crate::numbers::number_in;
use crate::pairs::{are_options, value_of};
use crate::{Mode, Options};
use decimal_text::number_of;

// The names of the five files.
#[derive(Clone, Copy)]
struct Files<'a> {
    image: &'a str,
    disk: &'a str,
    schedule: &'a str,
    report: &'a str,
    out: &'a str,
}

// The numbers that have a default.
#[derive(Clone, Copy)]
struct Sizes {
    block: u64,
    gap: u64,
    window: u64,
    limit: u64,
    memory: u64,
    pool: u64,
}

/// Reads the words after the program's name: the command `run` and its options, each at most once, in any order,
/// as two words `--name value` or as one word `--name=value` (own).
///
/// No memory is taken. `found` and `none` say together that there is an answer just where the words say one.
pub fn read_options(words: &[String]) -> Option<Options<'_>>
    ensures found { IfSome result (λ options. Says (texts words.now) (seen options)) }
    ensures none { IfNone result ((choice : Choice) → ¬ Says (texts words.now) choice) }
    ensures only { (choice : Choice) → Says (texts words.now) choice
        → option_map seen result ≡ Some choice }
{
    read_run(words)
}

fn read_run(words: &[String]) -> Option<Options<'_>>
    ensures found { IfSome result (λ options. Says (texts words.now) (seen options)) }
    ensures none { IfNone result ((choice : Choice) → ¬ Says (texts words.now) choice) }
{
    let (command, given) = words.split_first()?;
    if command.as_str() != "run" {
        return None;
    }
    read_given(given)
}

#[tactic(auto, using(crate::proofs::Refusals::refusals))]
fn read_given(given: &[String]) -> Option<Options<'_>>
    ensures found { IfSome result (λ options. SaysPairs (pairs (texts given.now)) (seen options)) }
    ensures none { IfNone result
        ((choice : Choice) → ¬ SaysPairs (pairs (texts given.now)) choice) }
{
    if !are_options(given) {
        return None;
    }
    let files = read_files(given)?;
    let mode = mode_of(value_of(given, "--mode")?)?;
    let id = number_of(value_of(given, "--id")?.as_bytes())?;
    let sizes = read_sizes(given)?;
    Some(Options {
        image: files.image,
        disk: files.disk,
        schedule: files.schedule,
        report: files.report,
        out: files.out,
        mode,
        id,
        block: sizes.block,
        gap: sizes.gap,
        window: sizes.window,
        limit: sizes.limit,
        memory: sizes.memory,
        pool: sizes.pool,
    })
}

fn read_files(given: &[String]) -> Option<Files<'_>>
    ensures files { MatchOption result
        ((names : FileNames) → ¬ SaysFiles (pairs (texts given.now)) names)
        (λ f. SaysFiles (pairs (texts given.now)) (record {
          image = f.image.now;
          disk = f.disk.now;
          schedule = f.schedule.now;
          report = f.report.now;
          out = f.out.now;
        })) }
{
    let files = Files {
        image: value_of(given, "--image")?,
        disk: value_of(given, "--disk")?,
        schedule: value_of(given, "--schedule")?,
        report: value_of(given, "--report")?,
        out: value_of(given, "--out")?,
    };
    if !are_different(&files) {
        return None;
    }
    Some(files)
}

// No two roles have one name.
fn are_different(files: &Files<'_>) -> bool
    ensures different { result ≡ are_different_of (files.now.image.now ∷ files.now.disk.now
        ∷ files.now.schedule.now ∷ files.now.report.now ∷ files.now.out.now ∷ []) }
{
    let Files {
        image,
        disk,
        schedule,
        report,
        out,
    } = *files;
    is_none_of(image, &[disk, schedule, report, out])
        && is_none_of(disk, &[schedule, report, out])
        && is_none_of(schedule, &[report, out])
        && is_none_of(report, &[out])
}

fn is_none_of(name: &str, others: &[&str]) -> bool
    ensures none { result ≡ not (list_any (λ other. bytes_eq other.now name.now) others.now) }
{
    !others.contains(&name)
}

fn mode_of(text: &str) -> Option<Mode>
    ensures mode { MatchOption result ((m : ModeOf) → text.now ≢ mode_text m)
        (λ m. text.now ≡ mode_text m) }
{
    match text {
        "fresh" => Some(Mode::Fresh),
        "resume" => Some(Mode::Resume),
        _ => None,
    }
}

fn read_sizes(given: &[String]) -> Option<Sizes>
    ensures sizes { MatchOption result
        ((sizes : SizesOf) → ¬ SaysSizes (pairs (texts given.now)) sizes)
        (λ s. SaysSizes (pairs (texts given.now)) (record {
          block = s.block;
          gap = s.gap;
          window = s.window;
          limit = s.limit;
          memory = s.memory;
          pool = s.pool;
        })) }
{
    Some(Sizes {
        block: block_in(value_of(given, "--block"))?,
        gap: number_in(value_of(given, "--gap"), 4, 0, 65_535)?,
        window: number_in(value_of(given, "--window"), 16, 1, 1024)?,
        limit: number_in(value_of(given, "--limit"), 8, 0, 65_535)?,
        memory: memory_in(value_of(given, "--memory"))?,
        pool: number_in(value_of(given, "--pool"), 8, 4, 16)?,
    })
}

#[tactic(auto, using(crate::proofs::Once::number_once))]
fn block_in(value: Option<&str>) -> Option<u64>
    ensures block { MatchOption result ((n : ℕ) → ¬ SaysBlock (option_copied value.entry) n)
        (λ n. SaysBlock (option_copied value.entry) n) }
{
    let number = number_in(value, 16, 8, 64)?;
    match number {
        8 | 16 | 32 | 64 => Some(number),
        _ => None,
    }
}

#[tactic(auto, using(crate::proofs::Once::number_once))]
fn memory_in(value: Option<&str>) -> Option<u64>
    ensures memory { MatchOption result ((n : ℕ) → ¬ SaysMemory (option_copied value.entry) n)
        (λ n. SaysMemory (option_copied value.entry) n) }
{
    let number = number_in(value, 1_048_576, 4096, 16_777_216)?;
    if number % 4096 != 0 {
        return None;
    }
    Some(number)
}
