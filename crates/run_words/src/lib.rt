//! The words of the command `run`, read to its options.
//!
//! Start with `read_options`. `specs/Pairs.antt` has what words are pairs of a name and a value, and
//! `specs/Options.antt` what pairs say; `docs/formats.md` has the same as a table.
//!
//! The tests are in `src/tests.rt`.

#![tactic(auto)]

mod numbers;
mod pairs;
mod reader;

ghost use Rattle.std.specs.Prelude.{◌≡◌, ℕ, List};
ghost use Rattle.run_words.specs.Options.{Choice, Says};

pub use reader::read_options;

/// Whether a deployment begins or goes on.
#[derive(Clone, Copy, Debug, PartialEq, Eq)]
pub enum Mode {
    /// It begins anew.
    Fresh,
    /// It goes on where an earlier run left it.
    Resume,
}

/// What a run is to do, as its words say (own).
#[derive(Clone, Copy, Debug)]
pub struct Options<'a> {
    /// The name of the image's file.
    pub image: &'a str,
    /// The name of the disk's file.
    pub disk: &'a str,
    /// The name of the schedule's file.
    pub schedule: &'a str,
    /// The name of the report's file.
    pub report: &'a str,
    /// The name of the file that the disk is written to.
    pub out: &'a str,
    /// Whether the deployment begins or goes on.
    pub mode: Mode,
    /// The number of the deployment.
    pub id: u64,
    /// Sectors of a block.
    pub block: u64,
    /// Ticks between two copy writes.
    pub gap: u64,
    /// Ticks over which guest commands are counted.
    pub window: u64,
    /// Guest commands in the window above which no copying begins.
    pub limit: u64,
    /// Bytes of the guest's memory.
    pub memory: u64,
    /// Leases of the monitor's own memory.
    pub pool: u64,
}

/// Words say one choice at most.
pub fn words_say_one_choice()
    ensures once { (words : List (List ℕ)) (a b : Choice) → Says words a → Says words b → a ≡ b }
{}

#[cfg(test)]
mod tests;
