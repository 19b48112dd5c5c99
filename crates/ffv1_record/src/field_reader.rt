//! Reading the fields of a record.
ghost use Rattle.std.specs.Prelude.{◌≡◌, ℕ, ◌+◌, ◌*◌, ◌^◌, ◌<◌, ◌≤◌, List, drop, length, map, IfOk, IsTrue, Ok, Err, nat_le, nat_abs, pos, ◌+ℤ◌};
ghost use Rattle.std.specs.List.{AllByRecursion};
ghost use Rattle.ffv1_range.specs.Reading.{opened};
ghost use Rattle.ffv1_range.specs.Symbol.{Source, source, bit_at_place, after_place};
ghost use Rattle.ffv1_record.specs.Reading.{Gives, Leaves, chroma_of, ec_at, fresh, signed_at, number_at, only_at, coder_at, entry_at, entries_at, bits_at, chroma_at, grid_at};
ghost use Rattle.pic_planes.specs.Grid.{IsGrid};
ghost use Rattle.pic_planes.specs.Shape.{AreShifts};

use crate::fault::RecordFault;
use ffv1_range::{DEFAULT_TRANSITION, RangeReader, States, Transition};
use pic_planes::Chroma;
use std::alloc::Global;
use std::marker::Model;

/// A reader of fields: what is read from, and the set of states that serves all fields but the tables.
#[derive(Drop)]
pub(crate) struct FieldReader<'a> {
    reader: RangeReader<'a>,
    pub(crate) set: States,
}

impl<'a> Model for FieldReader<'a> {
    ghost use Rattle.std.specs.Prelude.{◌≡◌};
    ghost use Rattle.ffv1_range.specs.declared.transition.TheConstants.{DEFAULT_TRANSITION};
    ghost use Rattle.ffv1_range.specs.Symbol.{Source, source};
    ghost use Rattle.ffv1_range.specs.Transition.{AllKept};
    ghost use Rattle.ffv1_record.specs.Reading.{fresh};

    ghost Value = { Source };

    ghost view = { λ a. source a.reader a.set };

    ghost invariant = { λ a. AllKept a.reader.table a.set × AllKept a.reader.table fresh × (a.reader.table ≡ DEFAULT_TRANSITION) };
}

impl<'a> FieldReader<'a> {
    /// A reader at the first field, by the default table.
    pub(crate) fn over(bytes: &'a [u8], table: &'a Transition) -> FieldReader<'a>
        requires { table.now ≡ DEFAULT_TRANSITION }
        ensures { result ≡ source (opened table.now bytes.now) fresh }
    {
        FieldReader {
            reader: RangeReader::over(bytes, table),
            set: States::fresh(),
        }
    }

    /// A one-bit field.
    pub(crate) fn flag(&mut self) -> bool
        ensures bit { result ≡ bit_at_place self.old 0 }
        ensures after { self.new ≡ after_place self.old 0 }
    {
        self.reader.flag(&mut self.set)
    }

    // A signed symbol.
    #[tactic(auto, unfolding(crate::specs::Reading::signed_at))]
    fn signed(&mut self) -> Result<i64, RecordFault>
        ensures gives { Leaves (λ value. value) result self.new (signed_at self.old) }
        ensures small { IfOk result (λ value. nat_abs value < 2 ^ 32) }
    {
        let value = self.reader.symbol(&mut self.set, true)?;
        Ok(value)
    }

    /// An unsigned symbol.
    #[tactic(auto, unfolding(crate::specs::Reading::number_at))]
    pub(crate) fn number(&mut self) -> Result<u32, RecordFault>
        ensures { Leaves (λ number. number) result self.new (number_at self.old) }
    {
        let value = self.reader.symbol(&mut self.set, false)?;
        Ok(value.unsigned_abs() as u32)
    }

    // A number that has one value only.
    #[tactic(auto, unfolding(crate::specs::Reading::only_at))]
    fn only(&mut self, value: u32, fault: RecordFault) -> Result<u32, RecordFault>
        ensures { Leaves (λ number. number) result self.new (only_at value fault self.old) }
    {
        let number = self.number()?;
        if number == value {
            Ok(number)
        } else {
            Err(fault)
        }
    }
}

// Whole fields of the record, each with its fault.
impl<'a> FieldReader<'a> {
    /// version, micro_version and coder_type.
    #[tactic(auto, unfolding(crate::specs::Reading::coder_at))]
    pub(crate) fn coder_type(&mut self) -> Result<u8, RecordFault>
        ensures gives { Leaves (λ coder_type. coder_type) result self.new (coder_at self.old) }
        ensures sound { IfOk result (λ coder_type. coder_type ≤ 2) }
    {
        self.only(3, RecordFault::Version)?;
        self.only(4, RecordFault::Micro)?;
        let coder_type = self.number()?;
        if coder_type <= 2 {
            Ok(coder_type as u8)
        } else {
            Err(RecordFault::Coder)
        }
    }

    /// colorspace_type and bits_per_raw_sample.
    #[tactic(auto, unfolding(crate::specs::Reading::bits_at))]
    pub(crate) fn bits_per_sample(&mut self) -> Result<u8, RecordFault>
        ensures gives { Leaves (λ bits. bits) result self.new (bits_at self.old) }
        ensures sound { IfOk result (λ bits. bits ≡ 8) }
    {
        self.only(0, RecordFault::Color)?;
        let bits = self.number()?;
        if bits == 0 || bits == 8 {
            Ok(8)
        } else {
            Err(RecordFault::Depth)
        }
    }

    /// chroma_planes, log2_h_chroma_subsample, log2_v_chroma_subsample and extra_plane.
    #[tactic(auto, unfolding(crate::specs::Reading::chroma_at))]
    pub(crate) fn chroma(&mut self) -> Result<Chroma, RecordFault>
        ensures gives { Leaves (λ chroma. chroma) result self.new (chroma_at self.old) }
        ensures sound { IfOk result AreShifts }
    {
        let has_planes = self.flag();
        let h = self.number()?;
        let v = self.number()?;
        let chroma = chroma_of(has_planes, h, v)?;
        if self.flag() {
            Err(RecordFault::ExtraPlane)
        } else {
            Ok(chroma)
        }
    }

    /// num_h_slices and num_v_slices.
    #[tactic(auto, unfolding(crate::specs::Reading::grid_at))]
    pub(crate) fn grid(&mut self) -> Result<(u32, u32), RecordFault>
        ensures gives { Leaves (λ grid. grid) result self.new (grid_at self.old) }
        ensures sound { IfOk result (λ grid. IsGrid grid.0 grid.1) }
    {
        let columns = u64::from(self.number()?) + 1;
        let rows = u64::from(self.number()?) + 1;
        if are_few(columns, rows) {
            Ok((columns as u32, rows as u32))
        } else {
            Err(RecordFault::Slices)
        }
    }

    /// ec.
    #[tactic(auto, unfolding(crate::specs::Reading::ec_at))]
    pub(crate) fn ec(&mut self) -> Result<bool, RecordFault>
        ensures { Leaves (λ ec. ec) result self.new (ec_at self.old) }
    {
        let ec = self.number()?;
        if ec <= 1 {
            Ok(ec == 1)
        } else {
            Err(RecordFault::Ec)
        }
    }

    /// intra, which is kept and not examined.
    pub(crate) fn intra(&mut self) -> Result<u32, RecordFault>
        ensures { Leaves (λ intra. intra) result self.new (number_at self.old) }
    {
        self.number()
    }

    /// An entry of the state transition table: the default one and a delta.
    #[tactic(auto, unfolding(crate::specs::Reading::entry_at))]
    pub(crate) fn entry(&mut self, default: u8) -> Result<u8, RecordFault>
        ensures gives { Leaves (λ entry. entry) result self.new (entry_at default self.old) }
        ensures sound { IfOk result (λ entry. 0 < entry) }
    {
        let delta = self.signed()?;
        let entry = entry_of(default, delta);
        if 1 <= entry && entry <= 255 {
            Ok(entry.unsigned_abs() as u8)
        } else {
            Err(RecordFault::Transition)
        }
    }
}

// The chroma planes by their fields.
fn chroma_of(has_planes: bool, h: u32, v: u32) -> Result<Chroma, RecordFault>
    ensures gives { Gives (λ chroma. chroma) result (chroma_of has_planes h v) }
    ensures sound { IfOk result AreShifts }
{
    if !has_planes {
        Ok(Chroma::Grey)
    } else if h <= 2 && v <= 2 {
        Ok(Chroma::Shifts {
            h: h as u8,
            v: v as u8,
        })
    } else {
        Err(RecordFault::Subsample)
    }
}

// Whether a grid has at most 1,024 slices.
fn are_few(columns: u64, rows: u64) -> bool
    requires columns { 1 ≤ columns }
    requires columns_fit { columns ≤ 2 ^ 32 }
    requires rows { 1 ≤ rows }
    requires rows_fit { rows ≤ 2 ^ 32 }
    ensures few { result ≡ nat_le (columns * rows) 1024 }
    ensures small { IsTrue result → (columns ≤ 1024) × (rows ≤ 1024) }
{
    columns <= 1024 && rows <= 1024 && columns * rows <= 1024
}

fn entry_of(default: u8, delta: i64) -> i64
    requires { nat_abs delta < 2 ^ 32 }
    ensures { result ≡ pos default +ℤ delta }
{
    i64::from(default) + delta
}
