//! Small arithmetic of codecs and containers: the parity of RFC 9043, a median, a difference folded to eight bits, and numbers
//! of fixed size in bytes.
#![tactic(auto)]

mod arithmetic;
mod crc;
mod numbers;
mod table;

pub use arithmetic::{fold8, median_is_middle, median3};
pub use crc::{parity, parity_is_remainder};
pub use numbers::{
    big_i16, big_u24, big_u32, big_uint, little_u32, numbers_read_back, put_big_i16, put_big_u24,
    put_big_u32, put_big_u64,
};

#[cfg(test)]
mod tests;
