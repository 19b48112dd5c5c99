//! The range coder on worked pieces.

ghost use Rattle.std.specs.Prelude.{◌≡◌, ◌≤◌, ℕ, List, [], ◌∷◌, true, false, pos, negsuc};
ghost use Rattle.ffv1_range.specs.Reading.{opened, after_bit};
ghost use Rattle.ffv1_range.specs.Symbol.{spelling};

use ffv1_range::{RangeReader, RangeWriter, States, Transition};
use std::alloc::{AllocError, Global};
use std::test::Fail;

#[test]
fn reads_two_bits(rt: HostRuntime) -> Result<(), Fail> {
    let table = Transition::default_table();
    let mut reader = RangeReader::over(&[0x80, 0x00], &table);
    let mut first = 128;
    let mut second = 128;
    assert!(rt; reader.bit(&mut first));
    assert_eq!(rt; first, 134);
    assert!(rt; !reader.bit(&mut second));
    assert_eq!(rt; second, 122);
    assert_eq!(rt; reader.taken(), 2);
    worked_readings();
    Ok(())
}

// What these two bits leave of the range and of the low number, by the definition.
fn worked_readings()
    ensures first { (table : List ℕ) → after_bit (opened table (128 ∷ 0 ∷ [])) 128
        ≡ record { table = table; range = 32640; low = 128; taken = 2; rest = [] } }
    ensures second { (table : List ℕ) → after_bit (record { table = table; range = 32640; low = 128; taken = 2; rest = [] }) 128
        ≡ record { table = table; range = 16320; low = 128; taken = 2; rest = [] } }
{}

// The lowest bits of a list, each written with a fresh state of its own.
fn written(
    alloc: Global,
    table: &Transition,
    list: u32,
    count: u8,
    sentinel: bool,
) -> Result<Vec<u8>, AllocError>
    requires { count ≤ 12 }
{
    let mut writer = RangeWriter::start(alloc, table);
    for i in 0..count {
        let mut state = 128;
        writer.bit(&mut state, list >> i & 1 == 1)?;
    }
    writer.finish(sentinel)
}

fn is_read(bytes: &[u8], table: &Transition, list: u32, count: u8) -> bool
    requires { count ≤ 12 }
{
    let mut reader = RangeReader::over(bytes, table);
    for i in 0..count {
        let mut state = 128;
        if reader.bit(&mut state) != (list >> i & 1 == 1) {
            return false;
        }
    }
    true
}

#[test]
fn reads_short_lists_back(rt: HostRuntime) -> Result<(), Fail> {
    let table = Transition::default_table();
    for count in 1..13u8 {
        for list in 0..4096u32 {
            let bare = written(rt.alloc(), &table, list, count, false)?;
            assert!(rt; is_read(bare.as_slice(), &table, list, count));
            let ended = written(rt.alloc(), &table, list, count, true)?;
            assert!(rt; is_read(ended.as_slice(), &table, list, count));
        }
    }
    Ok(())
}

// A flag and a value, written and read.
fn read_back(alloc: Global, table: &Transition, value: i64) -> Result<Option<i64>, AllocError> {
    let mut writer = RangeWriter::start(alloc, table);
    let mut set = States::fresh();
    writer.flag(&mut set, true)?;
    if value.unsigned_abs() < 0x1_0000_0000 {
        writer.symbol(&mut set, value, true)?;
    }
    let bytes = writer.finish(true)?;
    let mut reader = RangeReader::over(bytes.as_slice(), table);
    let mut set = States::fresh();
    if !reader.flag(&mut set) {
        return Ok(None);
    }
    Ok(reader.symbol(&mut set, true).ok())
}

#[test]
fn reads_symbols_back(rt: HostRuntime) -> Result<(), Fail> {
    let table = Transition::default_table();
    for value in [
        0,
        1,
        -1,
        -5,
        127,
        -128,
        65_535,
        -4_294_967_295,
        4_294_967_295,
    ] {
        assert_eq!(rt; read_back(rt.alloc(), &table, value)?, Some(value));
    }
    Ok(())
}

// The spellings of two values, by the definition: places in the set, and bits.
fn worked_spellings()
    ensures minus_five { spelling (negsuc 4) true
        ≡ (0, false) ∷ (1, true) ∷ (2, true) ∷ (3, false) ∷ (23, false) ∷ (22, true) ∷ (13, true) ∷ [] }
    ensures zero { spelling (pos 0) true ≡ (0, true) ∷ [] }
{}

const MINUS_FIVE: [(usize, bool); 7] = [
    (0, false),
    (1, true),
    (2, true),
    (3, false),
    (23, false),
    (22, true),
    (13, true),
];

const ZERO: [(usize, bool); 1] = [(0, true)];

// These bits, each written with a fresh state.
fn written_bits(
    alloc: Global,
    table: &Transition,
    spelling: &[(usize, bool)],
) -> Result<Vec<u8>, AllocError> {
    let mut writer = RangeWriter::start(alloc, table);
    for (_, bit) in spelling {
        let mut state = 128;
        writer.bit(&mut state, *bit)?;
    }
    writer.finish(false)
}

#[test]
fn spells_worked_values(rt: HostRuntime) -> Result<(), Fail> {
    worked_spellings();
    let table = Transition::default_table();
    for (value, spelling) in [(-5, MINUS_FIVE.as_slice()), (0, ZERO.as_slice())] {
        let mut writer = RangeWriter::start(rt.alloc(), &table);
        let mut set = States::fresh();
        writer.symbol(&mut set, value, true)?;
        let bytes = writer.finish(false)?;
        let spelled = written_bits(rt.alloc(), &table, spelling)?;
        assert_eq!(rt; bytes.as_slice(), spelled.as_slice(), "bits of {value}");
        let mut reader = RangeReader::over(spelled.as_slice(), &table);
        let mut set = States::fresh();
        assert_eq!(rt; reader.symbol(&mut set, true).ok(), Some(value));
    }
    Ok(())
}
