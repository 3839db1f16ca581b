//! Decimal numbers as text: digits without a leading zero, and the number that they tell.
//!
//! Start with `number_of`. `is_decimal` and `value` are its two halves, for a caller to whom a text of another form and
//! a number that is too large aren't the same. `specs/Decimal.antt` says what a decimal is.
//!
//! The tests are in `src/tests.rt`.

#![tactic(auto)]

mod decimal;
#[cfg(test)]
mod tests;

pub use decimal::{is_decimal, number_of, value};
