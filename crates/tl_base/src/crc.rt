//! Parity. RFC 9043 sections 4.3.2 and 4.9.3.
ghost use Rattle.std.specs.Prelude.{◌≡◌, ℕ, List, [], ◌∷◌, ◌++◌, replicate};
ghost use Rattle.tl_base.specs.Parity.{parity, coefficients, times, IsRemainder};

use crate::table::{of_byte_0, of_byte_1, of_byte_2, of_byte_3};

/// The parity of bytes: the remainder of their polynomial times x ^ 32 by 0x104C11DB7, the highest bit of the first byte first,
/// with initial value 0 and no inversion. Bytes that end with their parity, the highest byte first, have parity 0.
pub fn parity(bytes: &[u8]) -> u32
    ensures { result ≡ parity bytes.now }
{
    let words = bytes.len() / 4;
    let mut remainder = 0;
    for i in 0..words {
        let at = 4 * i;
        remainder = with_word(
            remainder,
            bytes[at],
            bytes[at + 1],
            bytes[at + 2],
            bytes[at + 3],
        );
    }
    for i in 4 * words..bytes.len() {
        remainder = with_byte(remainder, bytes[i]);
    }
    remainder
}

// The parity of bytes and four more.
#[inline(always)]
fn with_word(remainder: u32, a: u8, b: u8, c: u8, d: u8) -> u32
    ensures { (bytes : List ℕ) → remainder ≡ parity bytes → result ≡ parity (bytes ++ a ∷ b ∷ c ∷ d ∷ []) }
{
    let first = u32::from(a) << 24 ^ u32::from(b) << 16;
    let last = u32::from(c) << 8 ^ u32::from(d);
    times_word(remainder ^ first ^ last)
}

// A remainder times x ^ 32, by its bytes.
#[inline(always)]
fn times_word(word: u32) -> u32
    ensures { result ≡ times 32 word }
{
    of_byte_3((word >> 24) as u8)
        ^ of_byte_2((word >> 16 & 0xff) as u8)
        ^ of_byte_1((word >> 8 & 0xff) as u8)
        ^ of_byte_0((word & 0xff) as u8)
}

// The parity of bytes and one more.
#[inline(always)]
fn with_byte(remainder: u32, byte: u8) -> u32
    ensures { (bytes : List ℕ) → remainder ≡ parity bytes → result ≡ parity (bytes ++ byte ∷ []) }
{
    let high = (remainder >> 24) as u8;
    remainder << 8 ^ of_byte_0(high ^ byte)
}

/// What long division gives is the remainder of a division of polynomials.
pub fn parity_is_remainder()
    ensures { (bytes : List ℕ) → IsRemainder (coefficients bytes ++ replicate 32 0) (parity bytes) }
{}
