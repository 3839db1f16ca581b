//! The numbers that stand as values.

ghost use Rattle.std.specs.Prelude.{◌<◌, ◌^◌, ℕ, MatchOption};
ghost use Rattle.std.specs.Option.{option_copied};
ghost use Rattle.run_words.specs.Options.{IsNumber, IsNumberIn};

use decimal_text::number_of;

// The number that a value says, between two bounds; the default where there is no value.
#[tactic(auto, using(crate::proofs::Once::number_once))]
pub(crate) fn number_in(value: Option<&str>, default: u64, least: u64, most: u64) -> Option<u64>
    ensures number { MatchOption result
        ((n : ℕ) → ¬ IsNumberIn least most default (option_copied value.entry) n)
        (λ n. IsNumberIn least most default (option_copied value.entry) n) }
{
    let number = number_or(value, default)?;
    if number < least || most < number {
        return None;
    }
    Some(number)
}

fn number_or(value: Option<&str>, default: u64) -> Option<u64>
    ensures number { MatchOption result
        ((n : ℕ) → n < 2 ^ 64 → ¬ IsNumber default (option_copied value.entry) n)
        (λ n. IsNumber default (option_copied value.entry) n) }
{
    match value {
        Some(text) => number_of(text.as_bytes()),
        None => Some(default),
    }
}
