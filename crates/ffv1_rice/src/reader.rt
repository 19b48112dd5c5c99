//! Reading bits. RFC 9043 section 3.8.2.
ghost use Rattle.std.specs.Prelude.{◌≡◌, ℕ, ◌+◌, ◌*◌, ◌/◌, ◌^◌, ◌-◌, ◌<◌, ◌≤◌, ◌==◌, min, List, length, drop, slice_index};
ghost use Rattle.ffv1_rice.specs.Bits.{bits_of_bytes, number_at, zeros_at, opened, skipped};
ghost use Rattle.ffv1_rice.specs.Code.{coded_at, length_at};
ghost use Rattle.ffv1_rice.specs.Window.{IsWindow};

use crate::code::{Coded, code_of, highest};
use byteorder::{BigEndian, ByteOrder};
use std::marker::Model;

// Taken bits are counted up to here.
const MOST_TAKEN: u64 = 1 << 63;

/// A reader of bits, the highest of each byte first. Bits after the end of its bytes count as 0.
#[derive(Drop)]
pub struct BitReader<'a> {
    bytes: &'a [u8],
    position: u64,
}

// Clauses see the bits that are left, and how many were taken.
impl<'a> Model for BitReader<'a> {
    ghost use Rattle.std.specs.Prelude.{◌^◌, ◌*◌, ◌≤◌, ◌<◌, length, drop};
    ghost use Rattle.ffv1_rice.specs.Bits.{Reading, bits_of_bytes};

    ghost Value = { Reading };

    ghost view = { λ a. record { bits = drop a.position (bits_of_bytes a.bytes.now); taken = a.position } };

    ghost invariant = { λ a. (length a.bytes.now < 2 ^ 60) × (a.position ≤ 2 ^ 63) };
}

impl<'a> BitReader<'a> {
    /// A reader at the start of some bytes, fewer than 2^60.
    pub fn over(bytes: &'a [u8]) -> BitReader<'a>
        requires { length bytes.now < 2 ^ 60 }
        ensures { result ≡ opened bytes.now }
    {
        BitReader { bytes, position: 0 }
    }

    /// The bits that were taken, those after the end too, counted up to 2^63.
    pub fn taken(&self) -> u64
        ensures { result ≡ self.now.taken }
    {
        self.position
    }

    /// Reads one bit.
    #[inline]
    pub fn bit(&mut self) -> bool
        ensures bit { result ≡ (number_at 1 self.old.bits == 1) }
        ensures reader { self.new ≡ skipped 1 self.old }
    {
        let word = window(self.bytes, self.position);
        self.position = later(self.position, 1);
        word >> 63 == 1
    }

    /// Reads a number of up to 32 bits, the highest first.
    #[inline]
    pub fn number(&mut self, count: u32) -> u32
        requires { count ≤ 32 }
        ensures number { result ≡ number_at count self.old.bits }
        ensures fits { result < 2 ^ count }
        ensures reader { self.new ≡ skipped count self.old }
    {
        let word = window(self.bytes, self.position);
        self.position = later(self.position, count);
        highest(word, count)
    }

    // The code that comes next, with a parameter.
    #[inline(always)]
    pub(crate) fn next_code(&self, k: u32) -> Coded
        requires { k ≤ 8 }
        ensures number { result.number ≡ coded_at k self.now.bits }
        ensures length { result.length ≡ length_at k self.now.bits }
        ensures short { result.length ≤ 20 }
    {
        code_of(window(self.bytes, self.position), k)
    }

    // Passes over some bits.
    #[inline(always)]
    pub(crate) fn skip(&mut self, count: u32)
        ensures { self.new ≡ skipped count self.old }
    {
        self.position = later(self.position, count);
    }
}

// The position some bits further on.
#[inline(always)]
fn later(position: u64, count: u32) -> u64
    requires { position ≤ 2 ^ 63 }
    ensures { result ≡ min (position + count) (2 ^ 63) }
{
    (position + u64::from(count)).min(MOST_TAKEN)
}

// The bits at a position: of the next bits, for each count up to 57, the highest ones of the result.
#[inline(always)]
fn window(bytes: &[u8], position: u64) -> u64
    requires { position ≤ 2 ^ 63 }
    ensures { IsWindow result (drop position (bits_of_bytes bytes.now)) }
{
    let word = word_at(bytes, (position / 8) as usize);
    word << (position % 8)
}

// Eight bytes from a place on, with zeros after the end.
#[inline(always)]
fn word_at(bytes: &[u8], place: usize) -> u64
    requires { place ≤ 2 ^ 60 }
    ensures { result ≡ number_at 64 (drop (8 * place) (bits_of_bytes bytes.now)) }
{
    if place + 8 <= bytes.len() {
        first_word(&bytes[place..])
    } else {
        last_word(bytes, place)
    }
}

// The first eight of some bytes.
#[inline(always)]
fn first_word(bytes: &[u8]) -> u64
    requires { 8 ≤ length bytes.now }
    ensures { result ≡ number_at 64 (bits_of_bytes bytes.now) }
{
    BigEndian::read_u64(bytes)
}

#[cold]
#[inline(never)]
fn last_word(bytes: &[u8], place: usize) -> u64
    requires { place ≤ 2 ^ 60 }
    ensures { result ≡ number_at 64 (drop (8 * place) (bits_of_bytes bytes.now)) }
{
    let mut word = 0;
    for i in 0..8 {
        word = with_byte(word, byte_at(bytes, place + i));
    }
    word
}

// One more byte behind a number.
fn with_byte(word: u64, byte: u8) -> u64
    requires { word < 2 ^ 56 }
    ensures { result ≡ 256 * word + byte }
{
    256 * word + u64::from(byte)
}

// The byte at a place, and 0 after the end.
fn byte_at(bytes: &[u8], place: usize) -> u8
    ensures { result ≡ slice_index bytes.now place }
{
    if place < bytes.len() { bytes[place] } else { 0 }
}
