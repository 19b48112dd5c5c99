//! The bytes of a writer: the one number that the bits narrow, its last bytes in a register. RFC 9043 section 3.8.1.1.
ghost use Rattle.std.specs.Prelude.{◌≡◌, ℕ, ◌+◌, ◌*◌, ◌/◌, ◌^◌, ◌<◌, ◌≤◌, if◌then◌else◌, List, length, take};
ghost use Rattle.ffv1_range.specs.Writing.{shifted, put, part, with_sentinel};
ghost use Rattle.ffv1_range.specs.Cursor.{number_of, writing_at, IsSound};

/// Where a writer stands: the range, the kept low with its carry, and how many bytes were put.
#[derive(Clone, Copy)]
pub(crate) struct Cursor {
    pub(crate) range: u32,
    pub(crate) low: u32,
    pub(crate) used: usize,
}

// Adds one to a number of many bytes: a carry into its last byte, and through each byte FF.
fn add_one(bytes: &mut [u8])
    requires { number_of bytes.old + 1 < 256 ^ length bytes.old }
    ensures { number_of bytes.new ≡ number_of bytes.old + 1 }
{
    for back in 0..bytes.len() {
        let place = bytes.len() - 1 - back;
        if bytes[place] < 255 {
            bytes[place] += 1;
            return;
        }
        bytes[place] = 0;
    }
}

// Puts the high byte of a kept low, with its carry, behind the used bytes.
#[inline(always)]
fn put_byte(bytes: &mut [u8], used: usize, low: u32)
    requires room { used < length bytes.old }
    requires low { low < 2 ^ 17 }
    requires carry { 65536 * number_of (take used bytes.old) + low < 65536 * 256 ^ used }
    ensures { number_of (take (used + 1) bytes.new) ≡ 256 * number_of (take used bytes.old) + low / 256 }
{
    if low >= 0x1_0000 {
        add_one(&mut bytes[..used]);
    }
    bytes[used] = (low / 256 % 256) as u8;
}

// One more byte where the range has fallen below 256.
#[inline(always)]
#[tactic(auto, unfolding(crate::specs::Writing::shifted))]
fn shift(bytes: &mut [u8], at: Cursor) -> Cursor
    requires room { at.used < length bytes.old }
    requires range { 0 < at.range }
    requires narrow { at.range ≤ 0xFF00 }
    requires kept { at.low + at.range ≤ 2 * 0xFF00 }
    requires within { 65536 * number_of (take at.used bytes.old) + at.low + at.range ≤ 0xFF00 * 256 ^ at.used }
    ensures at { (table : List ℕ) → writing_at table bytes.new result ≡ shifted (writing_at table bytes.old at) }
    ensures sound { IsSound bytes.new result }
    ensures used { result.used ≤ at.used + 1 }
{
    if at.range < 256 {
        put_byte(bytes, at.used, at.low);
        Cursor {
            range: 256 * at.range,
            low: 256 * (at.low % 256),
            used: at.used + 1,
        }
    } else {
        at
    }
}

// Writes one bit with a state.
#[inline(always)]
#[tactic(auto, unfolding(crate::specs::Writing::put, crate::specs::Writing::chosen), using(crate::proofs::Stream::one_part_lt))]
pub(crate) fn write_bit(bytes: &mut [u8], at: Cursor, state: u8, bit: bool) -> Cursor
    requires sound { IsSound bytes.old at }
    requires room { at.used < length bytes.old }
    requires state { 0 < state }
    ensures at { (table : List ℕ) → writing_at table bytes.new result ≡ put (writing_at table bytes.old at) state bit }
    ensures sound { IsSound bytes.new result }
    ensures used { result.used ≤ at.used + 1 }
{
    let one = at.range * u32::from(state) / 256;
    let zero = at.range - one;
    if bit {
        let above = Cursor {
            range: one,
            low: at.low + zero,
            used: at.used,
        };
        shift(bytes, above)
    } else {
        let below = Cursor {
            range: zero,
            low: at.low,
            used: at.used,
        };
        shift(bytes, below)
    }
}

// Writes the sentinel, where there is to be one.
#[tactic(auto, unfolding(crate::specs::Writing::with_sentinel))]
pub(crate) fn put_sentinel(bytes: &mut [u8], at: Cursor, sentinel: bool) -> Cursor
    requires sound { IsSound bytes.old at }
    requires room { at.used < length bytes.old }
    ensures at { (table : List ℕ) → writing_at table bytes.new result
        ≡ (if sentinel then with_sentinel (writing_at table bytes.old at) else writing_at table bytes.old at) }
    ensures sound { IsSound bytes.new result }
    ensures used { result.used ≤ at.used + 1 }
{
    if sentinel {
        write_bit(bytes, at, 129, false)
    } else {
        at
    }
}

// Puts the last byte, rounded up.
pub(crate) fn end(bytes: &mut [u8], at: Cursor)
    requires sound { IsSound bytes.old at }
    requires room { at.used < length bytes.old }
    ensures { (table : List ℕ) → take (at.used + 1) bytes.new ≡ part (writing_at table bytes.old at) }
{
    put_byte(bytes, at.used, at.low + 255);
}
