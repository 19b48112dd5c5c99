//! Writing bits. RFC 9043 section 3.8.2.
ghost use Rattle.std.specs.Prelude.{◌≡◌, ℕ, ◌+◌, ◌-◌, ◌*◌, ◌/◌, ◌%◌, ◌^◌, ◌<◌, ◌≤◌, if◌then◌else◌, List, [], ◌∷◌, ◌++◌, IfOk, OnOk, OnErr, length, take, vec_len, vec_capacity};
ghost use Rattle.std.specs.Int.{bytes_high_first};
ghost use Rattle.tl_base.specs.Parity.{bits_of};
ghost use Rattle.ffv1_rice.specs.Bits.{bits_of_bytes, padded};
ghost use Rattle.ffv1_rice.specs.Writer.{bits_written};

use crate::code::power;
use std::alloc::{AllocError, Global};
use std::marker::Model;

const WORD_BITS: u32 = 64;

const WORD_BYTES: usize = 8;

/// A writer of bits, the highest of each byte first.
///
/// The last bits stand in a word, below its `free` bits, and room for their bytes is kept. No bit is free until the first is put.
#[derive(Drop)]
pub struct BitWriter {
    bytes: Vec<u8>,
    word: u64,
    free: u32,
}

// Clauses see the list of the bits.
impl Model for BitWriter {
    ghost use Rattle.std.specs.Prelude.{List, ℕ, ◌+◌, ◌<◌, ◌≤◌, vec_len, vec_capacity};
    ghost use Rattle.ffv1_rice.specs.Writer.{bits_written};

    ghost Value = { List ℕ };

    ghost view = { λ a. bits_written a.bytes.items a.word a.free };

    ghost invariant = { λ a. (a.free ≤ 64) × (0 < a.free → vec_len a.bytes + 8 ≤ vec_capacity a.bytes) };
}

impl BitWriter {
    /// A writer of no bits.
    pub fn start(alloc: Global) -> BitWriter
        ensures { result ≡ [] }
    {
        BitWriter {
            bytes: Vec::new(alloc),
            word: 0,
            free: 0,
        }
    }

    /// Writes one bit. Want of memory leaves the writer as it was.
    #[inline]
    pub fn bit(&mut self, bit: bool) -> Result<(), AllocError>
        ensures ok { OnOk result (self.new ≡ self.old ++ (if bit then 1 else 0) ∷ []) }
        ensures err { OnErr result (self.new ≡ self.old) }
    {
        self.put(u32::from(bit), 1)?;
        Ok(())
    }

    /// Writes a number in so many bits, at most 32, the highest first. Want of memory leaves the writer as it was.
    #[inline]
    pub fn put(&mut self, number: u32, count: u32) -> Result<(), AllocError>
        requires count { count ≤ 32 }
        requires number { number < 2 ^ count }
        ensures ok { OnOk result (self.new ≡ self.old ++ bits_of count number) }
        ensures err { OnErr result (self.new ≡ self.old) }
    {
        if count < self.free {
            self.word = put_behind(self.word, number, count);
            self.free -= count;
        } else {
            self.free = next_word(&mut self.bytes, self.word, self.free, number, count)?;
            self.word = u64::from(number);
        }
        Ok(())
    }

    /// The bytes of what was written, with bits 0 up to a whole byte. It takes no memory.
    pub fn finish(self) -> Vec<u8>
        ensures { bits_of_bytes result.items ≡ padded self }
    {
        let BitWriter {
            mut bytes,
            word,
            free,
        } = self;
        if free % WORD_BITS == 0 {
            return bytes;
        }
        let last = word_bytes(word, free);
        let used = ((WORD_BITS + 7 - free) / 8) as usize;
        match bytes.extend_from_slice(&last[..used]) {
            Ok(()) => bytes,
            Err(_) => unreachable!(),
        }
    }
}

// Puts the bytes of a word that a number fills, and answers how many bits are free in the next, whose lowest bits are the number's.
#[inline(never)]
fn next_word(
    bytes: &mut Vec<u8>,
    word: u64,
    free: u32,
    number: u32,
    count: u32,
) -> Result<u32, AllocError>
    requires free { free ≤ count }
    requires count { count ≤ 32 }
    requires number { number < 2 ^ count }
    requires room { 0 < free → vec_len bytes.old + 8 ≤ vec_capacity bytes.old }
    ensures ok { IfOk result (λ left. bits_written bytes.new.items number left
        ≡ bits_written bytes.old.items word free ++ bits_of count number) }
    ensures left { IfOk result (λ left. left ≤ 64) }
    ensures room { OnOk result (vec_len bytes.new + 8 ≤ vec_capacity bytes.new) }
    ensures items { OnErr result (bytes.new.items ≡ bytes.old.items) }
    ensures kept { OnErr result (0 < free → vec_len bytes.new + 8 ≤ vec_capacity bytes.new) }
{
    if free == 0 {
        bytes.reserve(WORD_BYTES)?;
        return Ok(WORD_BITS - count);
    }
    let over = count - free;
    let full = put_behind(word, number / power(over), free);
    bytes.reserve(2 * WORD_BYTES)?;
    bytes.extend_from_slice(&full.to_be_bytes())?;
    Ok(WORD_BITS - over)
}

// One more number behind the bits of a word, of which the highest are lost.
#[inline(always)]
fn put_behind(word: u64, number: u32, count: u32) -> u64
    requires count { count ≤ 32 }
    requires number { number < 2 ^ count }
    ensures { (held : ℕ) → held + count ≤ 64 → bits_of (held + count) result ≡ bits_of held word ++ bits_of count number }
{
    (word << count) + u64::from(number)
}

// The bytes of a word whose lowest bits are free, which become 0.
fn word_bytes(word: u64, free: u32) -> [u8; 8]
    requires { free < 64 }
    ensures { result ≡ bytes_high_first 8 ((word * 2 ^ free) % 2 ^ 64) }
{
    (word << free).to_be_bytes()
}
