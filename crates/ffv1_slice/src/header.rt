//! Slice headers. RFC 9043 section 4.6.
ghost use Rattle.std.specs.Prelude.{◌≡◌, ◌+◌, ◌<◌, ◌^◌, length, replicate, OnOk, OnErr, IfOk, IsTrue, ◌↔◌, None, false};
ghost use Rattle.ffv1_range.specs.Transition.{AllKept};
ghost use Rattle.ffv1_range.specs.Symbol.{source, symbol_at};
ghost use Rattle.ffv1_slice.specs.Header.{ReadsNumbers, TooLongInNumbers, ReadsNumber, Gives};

use crate::fault::HeaderFault;
use ffv1_range::{RangeReader, States, TooLong};

/// How many slices a row and a column of the grid have, and how many sets of quantization tables there are.
#[derive(Clone, Copy, Debug, PartialEq, Eq)]
pub struct Grid {
    pub columns: u32,
    pub rows: u32,
    pub table_sets: u32,
}

/// A slice header: the cells of the grid that the slice covers, and its sets of quantization tables.
#[derive(Clone, Copy, Debug, PartialEq, Eq)]
pub struct Header {
    pub x: u32,
    pub y: u32,
    pub columns: u32,
    pub rows: u32,
    pub luma_set: u32,
    pub chroma_set: u32,
}

/// Reads a slice header. `Header` comes exactly where a symbol is too long or the slice passes the grid, and else `TableIndex`
/// where an index isn't below the number of sets. The last three of its nine numbers count for nothing.
pub fn read_header(reader: &mut RangeReader, grid: Grid) -> Result<Header, HeaderFault>
    requires { AllKept reader.old.table (replicate 32 128) }
    ensures gives { Gives grid (source reader.old (replicate 32 128)) reader.new result }
    ensures table { reader.new.table ≡ reader.old.table }
{
    let mut numbers = [0; 9];
    let mut set = States::fresh();
    if read_numbers(reader, &mut set, &mut numbers).is_err() {
        return Err(HeaderFault::Header);
    }
    let [x, y, columns, rows, luma_set, chroma_set, _, _, _] = numbers;
    if !is_within(x, columns, grid.columns) || !is_within(y, rows, grid.rows) {
        return Err(HeaderFault::Header);
    }
    if luma_set >= grid.table_sets || chroma_set >= grid.table_sets {
        return Err(HeaderFault::TableIndex);
    }
    Ok(Header {
        x,
        y,
        columns: columns + 1,
        rows: rows + 1,
        luma_set,
        chroma_set,
    })
}

// Whether one cell more than some from a first one lie within the grid.
fn is_within(first: u32, more: u32, cells: u32) -> bool
    ensures { IsTrue result ↔ (first + more < cells) }
{
    u64::from(first) + u64::from(more) < u64::from(cells)
}

// Reads numbers in turn with one set of states.
fn read_numbers(
    reader: &mut RangeReader,
    set: &mut States,
    numbers: &mut [u32; 9],
) -> Result<(), TooLong>
    requires { AllKept reader.old.table set.old }
    ensures ok { OnOk result (ReadsNumbers numbers.new (source reader.old set.old) reader.new) }
    ensures too_long { OnErr result (TooLongInNumbers 9 (source reader.old set.old) reader.new) }
    ensures nine { length numbers.new ≡ 9 }
    ensures table { reader.new.table ≡ reader.old.table }
{
    for place in 0..9usize {
        numbers[place] = read_number(reader, set)?;
    }
    Ok(())
}

fn read_number(reader: &mut RangeReader, set: &mut States) -> Result<u32, TooLong>
    requires { AllKept reader.old.table set.old }
    ensures ok { IfOk result (λ number. ReadsNumber number (source reader.old set.old) (source reader.new set.new)) }
    ensures too_long { OnErr result (symbol_at (source reader.old set.old) false ≡ (None, source reader.new set.new)) }
    ensures table { reader.new.table ≡ reader.old.table }
    ensures kept { AllKept reader.new.table set.new }
{
    let number = reader.symbol(set, false)?;
    Ok(number.unsigned_abs() as u32)
}
