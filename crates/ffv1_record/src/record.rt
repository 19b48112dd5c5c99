//! The configuration record.
ghost use Rattle.std.specs.Prelude.{◌≡◌, ℕ, ◌≤◌, ◌<◌, ◌+◌, ◌-◌, ◌/◌, ◌^◌, ◌↔◌, IsSome, IfSome, IfOk, IsTrue, OnOk, Ok, true, length, map, slice_index_or, []};
ghost use Rattle.ffv1_record.specs.Reading.{Gives, fields_at, parameters};
ghost use Rattle.tl_limits.specs.Limits.{IsSide, max_side, max_slices};
ghost use Rattle.pic_planes.specs.Shape.{AreShifts, IsShape, layout};
ghost use Rattle.pic_planes.specs.Grid.{IsGrid};
ghost use Rattle.ffv1_record.specs.Parameters.{IsRecord, parameters_of, tables_of, context_count_of};
ghost use Rattle.ffv1_record.specs.Tables.{AreSets, AreContexts, set_of};
ghost use Rattle.ffv1_record.specs.Default.{coder_type_of};
ghost use Rattle.ffv1_record.specs.Suits.{Suits};
ghost use Rattle.ffv1_record.specs.Spelling.{record_bytes, with_parity};

use crate::entries::Tables;
use crate::fault::RecordFault;
use crate::field_reader::FieldReader;
use crate::field_writer::FieldWriter;
use crate::law::record_reads_back;
use crate::tables::TableSet;
use ffv1_range::{DEFAULT_TRANSITION, Transition};
use pic_planes::{Chroma, Shape, reaches_ends};
use std::alloc::{AllocError, Global};
use std::marker::Model;
use tl_base::{big_u32, parity, put_big_u32};

/// How samples are coded.
#[derive(Clone, Copy, Debug, PartialEq, Eq)]
pub enum Coder {
    /// By the range coder.
    Range,
    /// By Golomb-Rice codes.
    Rice,
}

/// A configuration record: how the frames of a clip are coded.
#[derive(Debug, Drop)]
pub struct Record {
    coder_type: u8,
    table: Transition,
    chroma: Chroma,
    columns: u32,
    rows: u32,
    sets: Vec<TableSet>,
    ec: bool,
    intra: u32,
}

// Clauses see the fields, with the whole tables that the runs of each set give.
impl Model for Record {
    ghost use Rattle.std.specs.Prelude.{ℕ};
    ghost use Rattle.pic_planes.specs.Shape.{AreShifts};
    ghost use Rattle.ffv1_record.specs.Parameters.{Parameters, parameters_of, IsTableFor};
    ghost use Rattle.pic_planes.specs.Grid.{IsGrid};
    ghost use Rattle.ffv1_record.specs.Tables.{AreSets};

    ghost Value = { Parameters };

    ghost view = { λ a. parameters_of a.coder_type a.table a.chroma a.columns a.rows a.sets.items a.ec a.intra };

    ghost invariant = { λ a. IsTableFor a.coder_type a.table × AreShifts a.chroma × IsGrid a.columns a.rows × AreSets a.sets.items };
}

impl Record {
    /// Reads a record: its fields, or the first fault in their order, after `Short` and `Parity`. Bytes after the last field aren't
    /// read, but count for the parity. RFC 9043 section 4.2.
    #[tactic(auto, unfolding(crate::specs::Reading::parameters))]
    pub fn read(alloc: Global, bytes: &[u8]) -> Result<Record, RecordFault>
        ensures { Gives (λ r. r) result (parameters bytes.now) }
    {
        if bytes.len() < 6 {
            return Err(RecordFault::Short);
        }
        let (content, last) = bytes.split_at(bytes.len() - 4);
        if big_u32(last) != parity(content) {
            return Err(RecordFault::Parity);
        }
        let default = Transition::default_table();
        let mut fields = FieldReader::over(content, &default);
        Record::from_fields(alloc, &mut fields)
    }

    /// Writes the record: its bytes, which are read again as the record. Its range-coded part has no closing bit, and its parity
    /// follows. RFC 9043 sections 3.8.1.1.1 and 4.3.2.
    pub fn write(&self, alloc: Global) -> Result<Vec<u8>, AllocError>
        ensures bytes { IfOk result (λ bytes. bytes.items ≡ record_bytes self.now) }
        ensures read_back { IfOk result (λ bytes. parameters bytes.items ≡ Ok self.now) }
    {
        record_reads_back();
        let default = Transition::default_table();
        let mut fields = FieldWriter::start(alloc, &default);
        let sets = self.sets.len() as u32;
        fields.coding(self.coder_type, &self.table)?;
        fields.planes(self.chroma)?;
        fields.grid(self.columns, self.rows, sets)?;
        fields.sets(self.sets.as_slice())?;
        fields.ending(sets, self.ec, self.intra)?;
        let mut bytes = fields.finish()?;
        put_parity(&mut bytes)?;
        Ok(bytes)
    }

    #[tactic(auto, unfolding(crate::specs::Reading::fields_at))]
    fn from_fields(alloc: Global, fields: &mut FieldReader) -> Result<Record, RecordFault>
        ensures { Gives (λ r. r) result (fields_at fields.old) }
    {
        let coder_type = fields.coder_type()?;
        let table = fields.transition(alloc, coder_type)?;
        fields.bits_per_sample()?;
        let chroma = fields.chroma()?;
        let (columns, rows) = fields.grid()?;
        let sets = fields.table_sets(alloc)?;
        let ec = fields.ec()?;
        let intra = fields.intra()?;
        Ok(Record {
            coder_type,
            table,
            chroma,
            columns,
            rows,
            sets,
            ec,
            intra,
        })
    }
}

impl Record {
    /// A record of the default state transition table, with error correction and key frames only.
    pub(crate) fn of_fields(
        coder: Coder,
        chroma: Chroma,
        columns: u32,
        rows: u32,
        sets: Vec<TableSet>,
    ) -> Record
        requires chroma { AreShifts chroma }
        requires grid { IsGrid columns rows }
        requires sets { AreSets sets.items }
        ensures { result ≡ parameters_of (coder_type_of coder) DEFAULT_TRANSITION chroma columns rows sets.items true 1 }
    {
        Record {
            coder_type: coder_type_of(coder),
            table: Transition::default_table(),
            chroma,
            columns,
            rows,
            sets,
            ec: true,
            intra: 1,
        }
    }

    /// How samples are coded.
    pub fn coder(&self) -> Coder
        ensures { (result ≡ Coder.Rice) ↔ (self.now.coder_type ≡ 0) }
    {
        if self.coder_type == 0 {
            Coder::Rice
        } else {
            Coder::Range
        }
    }

    /// The state transition table with which slices are coded.
    pub fn transition(&self) -> &Transition
        ensures { result.now ≡ self.now.transition }
    {
        &self.table
    }

    /// The chroma planes.
    pub fn chroma(&self) -> Chroma
        ensures chroma { result ≡ self.now.chroma }
        ensures sound { AreShifts result }
    {
        self.chroma
    }

    /// How many slices a row of the grid has.
    pub fn columns(&self) -> u32
        ensures columns { result ≡ self.now.columns }
        ensures sound { IsGrid self.now.columns self.now.rows }
    {
        self.columns
    }

    /// How many slices a column of the grid has.
    pub fn rows(&self) -> u32
        ensures rows { result ≡ self.now.rows }
        ensures sound { IsGrid self.now.columns self.now.rows }
    {
        self.rows
    }

    /// The sets of quantization tables.
    pub fn table_sets(&self) -> &[TableSet]
        ensures sets { map set_of result.now ≡ self.now.sets }
        ensures sound { AreSets result.now }
    {
        self.sets.as_slice()
    }

    /// Gives the entries of the tables of a set.
    pub fn fill(&self, set: usize, tables: &mut Tables)
        requires { set < length self.now.sets }
        ensures { tables.new ≡ tables_of self.now set }
    {
        self.sets.as_slice()[set].fill(tables);
    }

    /// Tells, in a proof, what is true of every record: its fields are those that a record can have, and the sum of one entry of
    /// each table of a set is one of the set's contexts. It does nothing.
    pub fn lawful(&self)
        ensures fields { IsRecord self.now }
        ensures contexts { (set : ℕ) → set < length self.now.sets → AreContexts (tables_of self.now set) (context_count_of self.now set) }
    {
        are_lawful(self.sets.as_slice());
        let _intra = self.intra;
    }

    /// Whether each slice ends with an error status and its parity.
    pub fn ec(&self) -> bool
        ensures { result ≡ self.now.ec }
    {
        self.ec
    }

    /// The same record but for ec.
    pub fn with_ec(self, ec: bool) -> Record
        ensures { result ≡ record self { ec = ec } }
    {
        let Record {
            coder_type,
            table,
            chroma,
            columns,
            rows,
            sets,
            ec: _,
            intra,
        } = self;
        Record {
            coder_type,
            table,
            chroma,
            columns,
            rows,
            sets,
            ec,
            intra,
        }
    }

    /// The shape of pictures of a size with the record's chroma. None exactly where a size isn't 1 to 8,192.
    pub fn shape(&self, width: u32, height: u32) -> Option<Shape>
        ensures some { IsSome result ↔ IsShape (layout width height self.now.chroma) }
        ensures shape { IfSome result (λ shape. shape ≡ layout width height self.now.chroma) }
    {
        Shape::of(width, height, self.chroma)
    }

    /// Whether pictures of a shape can be coded: the chroma is the record's, the grid isn't larger than the picture, and its
    /// slices reach the ends of the planes. RFC 9043 section 4.6.
    pub fn suits(&self, shape: Shape) -> bool
        ensures { IsTrue result ↔ Suits self.now shape }
    {
        let same = self.chroma == shape.chroma();
        let width = shape.width();
        let height = shape.height();
        let covered = reaches_ends(self.chroma, self.columns, self.rows, width, height);
        same && self.columns <= width && self.rows <= height && covered
    }
}

// The sum of one entry of each table of a set is one of the set's contexts.
fn are_lawful(sets: &[TableSet])
    requires { AreSets sets.now }
    ensures { (set : ℕ) → set < length sets.now
        → AreContexts (set_of (slice_index_or sets.now set [])).tables (set_of (slice_index_or sets.now set [])).context_count }
{}

/// Puts the parity of bytes behind them.
#[tactic(auto, unfolding(crate::specs::Spelling::with_parity))]
pub(crate) fn put_parity(bytes: &mut Vec<u8>) -> Result<(), AllocError>
    ensures { OnOk result (bytes.new.items ≡ with_parity bytes.old.items) }
{
    let mut last = [0; 4];
    put_big_u32(&mut last, parity(bytes.as_slice()));
    bytes.extend_from_slice(&last)?;
    Ok(())
}

fn coder_type_of(coder: Coder) -> u8
    ensures { result ≡ coder_type_of coder }
{
    match coder {
        Coder::Range => 1,
        Coder::Rice => 0,
    }
}
