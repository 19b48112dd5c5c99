//! Numbers in decimal digits.

ghost use Rattle.std.specs.Prelude.{◌≡◌, ℕ, ◌≤◌, ◌<◌, ◌^◌, ◌++◌, List, length, OnOk, OnErr, IfSome, option_map, Some, true};
ghost use Rattle.std.specs.List.{list_all};
ghost use Rattle.std.specs.Char.{is_ascii_digit};
ghost use Rattle.text_words.specs.Number.{is_number, value_of, number, signed_number, number_text, Extends};

use std::alloc::AllocError;

/// The number from `low` to `high` that a word of 1 to `most` digits spells, `most` being at most 9.
#[tactic(auto, unfolding(crate::specs::Number::number))]
pub fn number(most: usize, low: u32, high: u32, word: &[u8]) -> Option<u32>
    requires { most ≤ 9 }
    ensures exact { result ≡ number most low high word.now }
    ensures bounds { IfSome result (λ n. (low ≤ n) × (n ≤ high)) }
{
    if is_number(most, word) {
        let value = value_of(word);
        if low <= value && value <= high {
            Some(value)
        } else {
            None
        }
    } else {
        None
    }
}

/// The same from 0 to `high`, which is below 2 ^ 31, with a minus before it or not.
#[tactic(auto, unfolding(crate::specs::Number::signed_number))]
pub fn signed_number(most: usize, high: u32, word: &[u8]) -> Option<i32>
    requires few { most ≤ 9 }
    requires fits { high < 2 ^ 31 }
    ensures { result ≡ signed_number most high word.now }
{
    match word {
        [] => None,
        [b'-', digits @ ..] => match number(most, 0, high, digits) {
            Some(value) => Some(-value.cast_signed()),
            None => None,
        },
        _ => match number(most, 0, high, word) {
            Some(value) => Some(value.cast_signed()),
            None => None,
        },
    }
}

fn is_number(most: usize, word: &[u8]) -> bool
    ensures { result ≡ is_number most word.now }
{
    !word.is_empty() && word.len() <= most && are_digits(word)
}

fn are_digits(word: &[u8]) -> bool
    ensures { result ≡ list_all is_ascii_digit word.now }
{
    word.iter().all(|byte| byte.is_ascii_digit())
}

#[tactic(auto, using(crate::proofs::Digits::next_small, crate::proofs::Digits::fits_next))]
fn value_of(digits: &[u8]) -> u32
    requires few { length digits.now ≤ 9 }
    requires digits { list_all is_ascii_digit digits.now ≡ true }
    ensures { result ≡ value_of digits.now }
{
    let mut value = 0;
    for digit in digits {
        value = 10 * value + u32::from(digit.saturating_sub(b'0'));
    }
    value
}

/// Puts a number at the end, in as many digits as it has, and at least so many: a 0 has no digits of its own. After a refusal the
/// list begins as before.
pub fn put_number(out: &mut Vec<u8>, least: usize, number: u32) -> Result<(), AllocError>
    ensures ok { OnOk result (out.new.items ≡ out.old.items ++ number_text least number) }
    ensures err { OnErr result (Extends out.old.items out.new.items) }
{
    if least > 0 || number > 0 {
        put_number(out, least.saturating_sub(1), number / 10)?;
        out.push(b'0' + (number % 10) as u8)?;
    }
    Ok(())
}
