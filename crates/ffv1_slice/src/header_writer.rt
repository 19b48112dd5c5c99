//! Writing slice headers. RFC 9043 section 4.6.
ghost use Rattle.std.specs.Prelude.{◌≡◌, OnOk, length, replicate};
ghost use Rattle.ffv1_range.specs.Transition.{AllKept};
ghost use Rattle.ffv1_slice.specs.Header.{numbering, with_number, with_numbers, with_header};

use ffv1_range::{RangeWriter, States};
use std::alloc::AllocError;

/// Writes the header of a slice of one cell of the grid, with the first set of quantization tables. Only want of memory stops it.
pub fn write_header(writer: &mut RangeWriter, x: u32, y: u32) -> Result<(), AllocError>
    requires { AllKept writer.old.table (replicate 32 128) }
    ensures ok { OnOk result (writer.new ≡ with_header writer.old x y) }
    ensures table { writer.new.table ≡ writer.old.table }
{
    let mut set = States::fresh();
    write_numbers(writer, &mut set, &[x, y, 0, 0, 0, 0, 0, 0, 0])?;
    Ok(())
}

// Writes numbers in turn with one set of states.
fn write_numbers(
    writer: &mut RangeWriter,
    set: &mut States,
    numbers: &[u32],
) -> Result<(), AllocError>
    requires { AllKept writer.old.table set.old }
    ensures ok { OnOk result (numbering writer.new set.new ≡ with_numbers (numbering writer.old set.old) numbers.now) }
    ensures table { writer.new.table ≡ writer.old.table }
{
    for number in numbers {
        write_number(writer, set, *number)?;
    }
    Ok(())
}

#[tactic(auto, unfolding(crate::specs::Header::with_number))]
fn write_number(writer: &mut RangeWriter, set: &mut States, number: u32) -> Result<(), AllocError>
    requires { AllKept writer.old.table set.old }
    ensures ok { OnOk result (numbering writer.new set.new ≡ with_number (numbering writer.old set.old) number) }
    ensures table { writer.new.table ≡ writer.old.table }
    ensures kept { AllKept writer.new.table set.new }
{
    writer.symbol(set, i64::from(number), false)?;
    Ok(())
}
