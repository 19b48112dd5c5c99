//! Writing the fields of a record.
ghost use Rattle.std.specs.Prelude.{◌≡◌, ◌++◌, if◌then◌else◌, ℕ, ◌+◌, ◌-◌, ◌^◌, ◌<◌, ◌≤◌, List, All, length, IfOk, OnOk, nat_abs, true, pos, ◌+ℤ◌, neg_ℤ};
ghost use Rattle.ffv1_range.specs.Writing.{started, part};
ghost use Rattle.ffv1_range.specs.Symbol.{spelling};
ghost use Rattle.pic_planes.specs.Shape.{AreShifts};
ghost use Rattle.ffv1_record.specs.Reading.{fresh};
ghost use Rattle.ffv1_record.specs.Spelling.{number, flag, deltas, transition, chroma, coding, planes, grid, ending, runs, flags};
ghost use Rattle.ffv1_record.specs.Sink.{sink, wrote, wrote_table, wrote_tables, wrote_sets};

use crate::tables::{Runs, TableSet};
use ffv1_range::{DEFAULT_TRANSITION, RangeWriter, States, Transition};
use pic_planes::Chroma;
use std::alloc::{AllocError, Global};
use std::marker::Model;

/// A writer of fields: what was written, and the set of states that serves all fields but the tables.
#[derive(Drop)]
pub(crate) struct FieldWriter<'a> {
    writer: RangeWriter<'a>,
    set: States,
}

impl<'a> Model for FieldWriter<'a> {
    ghost use Rattle.std.specs.Prelude.{◌≡◌};
    ghost use Rattle.ffv1_range.specs.declared.transition.TheConstants.{DEFAULT_TRANSITION};
    ghost use Rattle.ffv1_range.specs.Transition.{AllKept};
    ghost use Rattle.ffv1_record.specs.Reading.{fresh};
    ghost use Rattle.ffv1_record.specs.Sink.{Sink, sink};

    ghost Value = { Sink };

    ghost view = { λ a. sink a.writer a.set };

    ghost invariant = { λ a. AllKept a.writer.table a.set × AllKept a.writer.table fresh × (a.writer.table ≡ DEFAULT_TRANSITION) };
}

impl<'a> FieldWriter<'a> {
    /// A writer before the first field, by the default table.
    pub(crate) fn start(alloc: Global, table: &'a Transition) -> FieldWriter<'a>
        requires { table.now ≡ DEFAULT_TRANSITION }
        ensures { result ≡ sink (started table.now) fresh }
    {
        FieldWriter {
            writer: RangeWriter::start(alloc, table),
            set: States::fresh(),
        }
    }

    /// A one-bit field.
    #[tactic(auto, unfolding(crate::specs::Sink::wrote, crate::specs::Spelling::flag))]
    pub(crate) fn flag(&mut self, bit: bool) -> Result<(), AllocError>
        ensures { OnOk result (self.new ≡ wrote self.old (flag bit)) }
    {
        self.writer.flag(&mut self.set, bit)?;
        Ok(())
    }

    /// An unsigned symbol.
    #[tactic(auto, unfolding(crate::specs::Sink::wrote, crate::specs::Spelling::number))]
    pub(crate) fn number(&mut self, value: u32) -> Result<(), AllocError>
        ensures { OnOk result (self.new ≡ wrote self.old (number value)) }
    {
        self.writer.symbol(&mut self.set, i64::from(value), false)?;
        Ok(())
    }

    /// The difference of an entry of the state transition table from the default one.
    #[tactic(auto, unfolding(crate::specs::Sink::wrote))]
    pub(crate) fn delta(&mut self, default: u8, entry: u8) -> Result<(), AllocError>
        ensures { OnOk result (self.new ≡ wrote self.old (spelling (pos entry +ℤ neg_ℤ (pos default)) true)) }
    {
        self.writer
            .symbol(&mut self.set, i64::from(entry) - i64::from(default), true)?;
        Ok(())
    }

    /// The fields before the state of the picture: version, micro_version, coder_type and the deltas.
    #[tactic(auto, unfolding(crate::specs::Spelling::coding))]
    pub(crate) fn coding(&mut self, coder_type: u8, table: &Transition) -> Result<(), AllocError>
        ensures { OnOk result (self.new ≡ wrote self.old (coding coder_type table.now)) }
    {
        self.number(3)?;
        self.number(4)?;
        self.number(u32::from(coder_type))?;
        self.transition(coder_type, table)?;
        Ok(())
    }

    /// From colorspace_type on to extra_plane.
    #[tactic(auto, unfolding(crate::specs::Spelling::planes))]
    pub(crate) fn planes(&mut self, chroma: Chroma) -> Result<(), AllocError>
        ensures { OnOk result (self.new ≡ wrote self.old (planes 8 chroma)) }
    {
        self.number(0)?;
        self.number(8)?;
        self.chroma(chroma)?;
        self.flag(false)?;
        Ok(())
    }

    /// The grid of slices, and the number of table sets.
    #[tactic(auto, unfolding(crate::specs::Spelling::grid))]
    pub(crate) fn grid(&mut self, columns: u32, rows: u32, sets: u32) -> Result<(), AllocError>
        requires columns { 1 ≤ columns }
        requires rows { 1 ≤ rows }
        ensures { OnOk result (self.new ≡ wrote self.old (grid columns rows sets)) }
    {
        self.number(columns - 1)?;
        self.number(rows - 1)?;
        self.number(sets)?;
        Ok(())
    }

    /// The fields after the tables.
    #[tactic(auto, unfolding(crate::specs::Spelling::ending))]
    pub(crate) fn ending(&mut self, sets: u32, ec: bool, intra: u32) -> Result<(), AllocError>
        ensures { OnOk result (self.new ≡ wrote self.old (ending sets ec intra)) }
    {
        self.no_initial_states(sets)?;
        self.number(ec_number(ec))?;
        self.number(intra)?;
        Ok(())
    }

    // chroma_planes, log2_h_chroma_subsample and log2_v_chroma_subsample.
    #[tactic(auto, unfolding(crate::specs::Spelling::chroma))]
    fn chroma(&mut self, planes: Chroma) -> Result<(), AllocError>
        ensures { OnOk result (self.new ≡ wrote self.old (chroma planes)) }
    {
        match planes {
            Chroma::Grey => {
                self.shifts(false, 0, 0)?;
                Ok(())
            }
            Chroma::Shifts { h, v } => {
                self.shifts(true, h, v)?;
                Ok(())
            }
        }
    }

    fn shifts(&mut self, has_planes: bool, h: u8, v: u8) -> Result<(), AllocError>
        ensures { OnOk result (self.new ≡ wrote self.old (flag has_planes ++ number h ++ number v)) }
    {
        self.flag(has_planes)?;
        self.number(u32::from(h))?;
        self.number(u32::from(v))?;
        Ok(())
    }

    // The deltas of a table of its own, which has the coder type 2.
    #[tactic(auto, unfolding(crate::specs::Spelling::transition))]
    fn transition(&mut self, coder_type: u8, table: &Transition) -> Result<(), AllocError>
        ensures { OnOk result (self.new ≡ wrote self.old (transition coder_type table.now)) }
    {
        if coder_type == 2 {
            let default = Transition::default_table();
            let (_, default) = default.one_states().split_at(1);
            let (_, entries) = table.one_states().split_at(1);
            self.deltas(default, entries)?;
        }
        Ok(())
    }

    // The differences of entries from the default ones.
    fn deltas(&mut self, default: &[u8], entries: &[u8]) -> Result<(), AllocError>
        requires { length default.now ≡ length entries.now }
        ensures { OnOk result (self.new ≡ wrote self.old (deltas default.now entries.now)) }
    {
        for i in 0..default.len() {
            self.delta(default[i], entries[i])?;
        }
        Ok(())
    }

    /// The tables of sets.
    pub(crate) fn sets(&mut self, sets: &[TableSet]) -> Result<(), AllocError>
        ensures { OnOk result (self.new ≡ wrote_sets self.old sets.now) }
    {
        for set in sets {
            self.tables(set)?;
        }
        Ok(())
    }

    fn tables(&mut self, set: &TableSet) -> Result<(), AllocError>
        ensures { OnOk result (self.new ≡ wrote_tables self.old set.now) }
    {
        for table in &set.tables {
            self.table(table.lengths.as_slice())?;
        }
        Ok(())
    }

    // A table's runs, with a fresh set of their own.
    #[tactic(auto, unfolding(crate::specs::Sink::wrote_table))]
    fn table(&mut self, lengths: &[u8]) -> Result<(), AllocError>
        ensures { OnOk result (self.new ≡ wrote_table self.old lengths.now) }
    {
        let fields = self.set;
        self.set = States::fresh();
        self.runs(lengths)?;
        self.set = fields;
        Ok(())
    }

    // Each run by its length less 1.
    fn runs(&mut self, lengths: &[u8]) -> Result<(), AllocError>
        ensures { OnOk result (self.new ≡ wrote self.old (runs lengths.now)) }
    {
        for run in lengths {
            self.number(less_one(*run))?;
        }
        Ok(())
    }

    // states_coded of so many sets: none has states of its own.
    fn no_initial_states(&mut self, count: u32) -> Result<(), AllocError>
        ensures { OnOk result (self.new ≡ wrote self.old (flags count)) }
    {
        for _ in 0..count {
            self.flag(false)?;
        }
        Ok(())
    }

    /// The bytes of what was written.
    pub(crate) fn finish(self) -> Result<Vec<u8>, AllocError>
        ensures { IfOk result (λ bytes. bytes.items ≡ part self.entry.writing) }
    {
        let FieldWriter { writer, set: _ } = self;
        writer.finish(false)
    }
}

fn less_one(run: u8) -> u32
    ensures { result ≡ run - 1 }
{
    u32::from(run.saturating_sub(1))
}

fn ec_number(ec: bool) -> u32
    ensures { result ≡ (if ec then 1 else 0) }
{
    u32::from(ec)
}
