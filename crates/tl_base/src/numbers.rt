//! Numbers of fixed size in bytes, by `byteorder`. A slice may have more bytes than a number takes: those behind it are not read,
//! and stay as they are.
ghost use Rattle.std.specs.Prelude.{◌≡◌, ℕ, ◌≤◌, ◌<◌, ◌^◌, ◌++◌, List, length, drop};
ghost use Rattle.std.specs.Int.{cast_signed, cast_unsigned, w16};
ghost use Rattle.byteorder.specs.Endian.{big_number, big_bytes, little_number, little_bytes};

use byteorder::{BigEndian, ByteOrder, LittleEndian};

/// The number of 3 bytes, the highest first.
pub fn big_u24(bytes: &[u8]) -> u32
    requires { 3 ≤ length bytes.now }
    ensures { result ≡ big_number 3 bytes.now }
{
    BigEndian::read_u24(bytes)
}

/// The number of 4 bytes, the highest first.
pub fn big_u32(bytes: &[u8]) -> u32
    requires { 4 ≤ length bytes.now }
    ensures { result ≡ big_number 4 bytes.now }
{
    BigEndian::read_u32(bytes)
}

/// The number of 4 bytes, the lowest first.
pub fn little_u32(bytes: &[u8]) -> u32
    requires { 4 ≤ length bytes.now }
    ensures { result ≡ little_number 4 bytes.now }
{
    LittleEndian::read_u32(bytes)
}

/// The signed number of 2 bytes, the highest first.
pub fn big_i16(bytes: &[u8]) -> i16
    requires { 2 ≤ length bytes.now }
    ensures { result ≡ cast_signed w16 (big_number 2 bytes.now) }
{
    BigEndian::read_u16(bytes).cast_signed()
}

/// The number of all the bytes, of which there are at most 8, the highest first. No bytes are 0.
pub fn big_uint(bytes: &[u8]) -> u64
    requires { length bytes.now ≤ 8 }
    ensures { result ≡ big_number (length bytes.now) bytes.now }
{
    if bytes.is_empty() {
        0
    } else {
        BigEndian::read_uint(bytes, bytes.len())
    }
}

/// Puts a number in 3 bytes, the highest first.
pub fn put_big_u24(out: &mut [u8], n: u32)
    requires room { 3 ≤ length out.old }
    requires fits { n < 2 ^ 24 }
    ensures { out.new ≡ big_bytes 3 n ++ drop 3 out.old }
{
    BigEndian::write_u24(out, n);
}

/// Puts a number in 4 bytes, the highest first.
pub fn put_big_u32(out: &mut [u8], n: u32)
    requires { 4 ≤ length out.old }
    ensures { out.new ≡ big_bytes 4 n ++ drop 4 out.old }
{
    BigEndian::write_u32(out, n);
}

/// Puts a number in 8 bytes, the highest first.
pub fn put_big_u64(out: &mut [u8], n: u64)
    requires { 8 ≤ length out.old }
    ensures { out.new ≡ big_bytes 8 n ++ drop 8 out.old }
{
    BigEndian::write_u64(out, n);
}

/// Puts a signed number in 2 bytes, the highest first.
pub fn put_big_i16(out: &mut [u8], n: i16)
    requires { 2 ≤ length out.old }
    ensures { out.new ≡ big_bytes 2 (cast_unsigned w16 n) ++ drop 2 out.old }
{
    BigEndian::write_u16(out, n.cast_unsigned());
}

/// What was put is read back, whatever follows.
pub fn numbers_read_back()
    ensures big { (count n : ℕ) (rest : List ℕ) → n < 256 ^ count → big_number count (big_bytes count n ++ rest) ≡ n }
    ensures little { (count n : ℕ) (rest : List ℕ) → n < 256 ^ count → little_number count (little_bytes count n ++ rest) ≡ n }
{}
