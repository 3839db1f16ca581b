//! The words behind the command, pair by pair.

ghost use Rattle.std.specs.Prelude.{◌≡◌, ◌≤◌, ◌<◌, ◌∷◌, length, false, IfSome, MatchOption};
ghost use Rattle.std.specs.Option.{option_copied};
ghost use Rattle.run_words.specs.Pairs.{texts, is_joined, pairs, value_of as value_in, is_name as is_name_of};
ghost use Rattle.run_words.specs.Pairs.{is_value as is_value_of, are_options as are_options_of};

// The words are options and their values, and no name stands twice.
pub(crate) fn are_options(words: &[String]) -> bool
    ensures options { result ≡ are_options_of (pairs (texts words.now)) }
{
    let mut rest = words;
    while let Some((name, value, others)) = first_pair(rest) {
        if !is_name(name) || !is_value(value) || value_of(others, name).is_some() {
            return false;
        }
        rest = others;
    }
    true
}

// The value that stands behind a name.
pub(crate) fn value_of<'a>(words: &'a [String], wanted: &str) -> Option<&'a str>
    ensures value { option_copied result ≡ value_in (pairs (texts words.now)) wanted.now }
{
    let mut rest = words;
    while let Some((name, value, others)) = first_pair(rest) {
        if name == wanted {
            return Some(value);
        }
        rest = others;
    }
    None
}

// The first pair and the words behind it.
fn first_pair(words: &[String]) -> Option<(&str, &str, &[String])>
    ensures pair { MatchOption result (length words.now ≡ 0) (λ cut. pairs (texts words.now)
        ≡ record { name = cut.0.now; value = cut.1.now } ∷ pairs (texts cut.2.now)) }
    ensures shorter { IfSome result (λ cut. length cut.2.now < length words.now) }
{
    match words {
        [] => None,
        [word, rest @ ..] => Some(cut(word.as_str(), rest)),
    }
}

#[tactic(auto, using(crate::proofs::Splits::splits))]
fn cut<'a>(word: &'a str, rest: &'a [String]) -> (&'a str, &'a str, &'a [String])
    ensures pair { pairs (word.now ∷ texts rest.now)
        ≡ record { name = result.0.now; value = result.1.now } ∷ pairs (texts result.2.now) }
    ensures shorter { length result.2.now ≤ length rest.now }
{
    match word.split_once('=') {
        Some((name, value)) => (name, value, rest),
        None => cut_apart(word, rest),
    }
}

// A name and the next word; the last word stands with nothing.
#[tactic(auto, using(crate::proofs::Splits::splits))]
fn cut_apart<'a>(word: &'a str, rest: &'a [String]) -> (&'a str, &'a str, &'a [String])
    requires { is_joined word.now ≡ false }
    ensures pair { pairs (word.now ∷ texts rest.now)
        ≡ record { name = result.0.now; value = result.1.now } ∷ pairs (texts result.2.now) }
    ensures shorter { length result.2.now ≤ length rest.now }
{
    match rest {
        [] => (word, "", rest),
        [value, others @ ..] => (word, value.as_str(), others),
    }
}

fn is_name(word: &str) -> bool
    ensures name { result ≡ is_name_of word.now }
{
    matches!(
        word,
        "--image"
            | "--disk"
            | "--schedule"
            | "--report"
            | "--out"
            | "--mode"
            | "--id"
            | "--block"
            | "--gap"
            | "--window"
            | "--limit"
            | "--memory"
            | "--pool"
    )
}

fn is_value(word: &str) -> bool
    ensures value { result ≡ is_value_of word.now }
{
    !word.is_empty() && !word.starts_with('-')
}
