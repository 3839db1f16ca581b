//! A text's decimal digits, and their number.

ghost use Rattle.std.specs.Prelude.{◌≡◌, ◌≢◌, ◌<◌, ◌^◌, ◌↔◌, ℕ, decimal, IsTrue, IfSome, SomeIff, MatchOption};
ghost use Rattle.std.specs.List.{list_all};
ghost use Rattle.std.specs.Char.{is_ascii_digit};
ghost use Rattle.std.specs.Str.Parse.{digits_value};
ghost use Rattle.decimal_text.specs.Decimal.{IsDecimal};

use std::str;

/// The number whose decimal text this is (own). None exactly where it is that of no number below 2^64: another form,
/// or a number that is too large.
#[tactic(auto, using(crate::proofs::Decimals::decimals))]
pub fn number_of(text: &[u8]) -> Option<u64>
    ensures number { MatchOption result ((n : ℕ) → n < 2 ^ 64 → text.now ≢ decimal n)
        (λ n. text.now ≡ decimal n) }
{
    if !is_decimal(text) {
        return None;
    }
    value(text)
}

/// Whether a text is a decimal: digits without a leading zero, however many (own).
#[tactic(auto, using(crate::proofs::Decimals::digits))]
pub fn is_decimal(text: &[u8]) -> bool
    ensures decimal { IsTrue result ↔ IsDecimal text.now }
{
    match text {
        [b'0'] => true,
        [b'1'..=b'9', ..] => has_only_digits(text),
        _ => false,
    }
}

/// The number that a decimal tells. None exactly where it isn't below 2^64.
#[tactic(auto, using(crate::proofs::Decimals::decimals))]
pub fn value(digits: &[u8]) -> Option<u64>
    requires { IsDecimal digits.now }
    ensures value { SomeIff result
        (digits_value 10 digits.now < 2 ^ 64) (digits_value 10 digits.now) }
    ensures text { IfSome result (λ n. digits.now ≡ decimal n) }
{
    match str::from_utf8(digits) {
        Ok(text) => text.parse().ok(),
        Err(_) => None,
    }
}

fn has_only_digits(text: &[u8]) -> bool
    ensures digits { result ≡ list_all is_ascii_digit text.now }
{
    text.iter().all(|byte| byte.is_ascii_digit())
}
