//! Codes of numbers in a word of bits. RFC 9043 section 3.8.2.1.
ghost use Rattle.std.specs.Prelude.{◌≡◌, ℕ, ◌-◌, ◌/◌, ◌^◌, ◌<◌, ◌≤◌, ◌++◌, List, OnOk, OnErr};
ghost use Rattle.ffv1_rice.specs.Code.{code, coded_at, length_at};
ghost use Rattle.ffv1_rice.specs.Window.{IsWindow};

use crate::writer::BitWriter;
use std::alloc::AllocError;

/// A number that was read, and how many bits its code has.
#[derive(Clone, Copy)]
pub(crate) struct Coded {
    pub(crate) number: u32,
    pub(crate) length: u32,
}

// The zeros that begin the escape.
const ESCAPE_ZEROS: u32 = 12;

// What the escape's 8 bits are counted from.
const ESCAPED_FROM: u32 = 11;

// The code at the start of a word.
#[inline(always)]
pub(crate) fn code_of(word: u64, k: u32) -> Coded
    requires { k ≤ 8 }
    ensures number { (bits : List ℕ) → IsWindow word bits → result.number ≡ coded_at k bits }
    ensures length { (bits : List ℕ) → IsWindow word bits → result.length ≡ length_at k bits }
    ensures short { result.length ≤ 20 }
{
    let prefix = highest(word, ESCAPE_ZEROS);
    if prefix == 0 {
        return Coded {
            number: highest(word, ESCAPE_ZEROS + 8) + ESCAPED_FROM,
            length: ESCAPE_ZEROS + 8,
        };
    }
    let zeros = prefix.leading_zeros() - 20;
    let length = zeros + 1 + k;
    let one = power(k);
    Coded {
        number: leading(word, length) + zeros * one - one,
        length,
    }
}

// Writes the code of a number.
#[inline(always)]
pub(crate) fn put_code(bits: &mut BitWriter, k: u32, u: u32) -> Result<(), AllocError>
    requires parameter { k ≤ 8 }
    requires number { u < 256 }
    ensures ok { OnOk result (bits.new ≡ bits.old ++ code k u) }
    ensures err { OnErr result (bits.new ≡ bits.old) }
{
    let one = power(k);
    let prefix = u / one;
    if prefix < ESCAPE_ZEROS {
        bits.put(one + u % one, prefix + 1 + k)?;
    } else {
        bits.put(u - ESCAPED_FROM, ESCAPE_ZEROS + 8)?;
    }
    Ok(())
}

// The highest bits of a word, as a number.
#[inline(always)]
pub(crate) fn highest(word: u64, count: u32) -> u32
    requires { count ≤ 32 }
    ensures number { result ≡ word / 2 ^ (64 - count) }
    ensures fits { result < 2 ^ count }
{
    ((word >> 32) >> (32 - count)) as u32
}

// The same, of at least one bit: by one shift.
#[inline(always)]
fn leading(word: u64, count: u32) -> u32
    requires some { 0 < count }
    requires few { count ≤ 32 }
    ensures number { result ≡ word / 2 ^ (64 - count) }
    ensures fits { result < 2 ^ count }
{
    (word >> (64 - count)) as u32
}

#[inline(always)]
pub(crate) fn power(k: u32) -> u32
    requires { k < 32 }
    ensures { result ≡ 2 ^ k }
{
    1 << k
}
