//! Reading the tables of a record.
ghost use Rattle.std.specs.Prelude.{◌≡◌, ℕ, ◌+◌, ◌*◌, ◌^◌, ◌<◌, ◌≤◌, List, All, drop, length, sum, IfOk, vec_len};
ghost use Rattle.ffv1_record.specs.Reading.{Leaves, entries_at, transition_at, runs_at, table_at, tables_at, sets_at, states_at, all_sets_at};
ghost use Rattle.ffv1_record.specs.Parameters.{IsTableFor};
ghost use Rattle.ffv1_record.specs.Tables.{AreRuns, AreSetRuns, AreSets, next_scale};

use crate::fault::RecordFault;
use crate::field_reader::FieldReader;
use crate::tables::{Runs, TableSet};
use ffv1_range::{States, Transition};
use std::alloc::Global;

/// The largest scale of a table.
pub const MAX_SCALE: u32 = 32_768;

impl<'a> FieldReader<'a> {
    /// The state transition table of a coder type, by its deltas where it has them.
    #[tactic(auto, unfolding(crate::specs::Reading::transition_at))]
    pub(crate) fn transition(
        &mut self,
        alloc: Global,
        coder_type: u8,
    ) -> Result<Transition, RecordFault>
        requires { coder_type ≤ 2 }
        ensures gives { Leaves (λ table. table) result self.new (transition_at coder_type self.old) }
        ensures sound { IfOk result (IsTableFor coder_type) }
    {
        let default = Transition::default_table();
        if coder_type != 2 {
            return Ok(default);
        }
        let (_, default) = default.one_states().split_at(1);
        let entries = self.entries(alloc, default)?;
        Ok(Transition::of(entries.as_slice()).unwrap())
    }

    // The entries that deltas give to default ones.
    fn entries(&mut self, alloc: Global, default: &[u8]) -> Result<Vec<u8>, RecordFault>
        ensures gives { Leaves (λ entries. entries.items) result self.new (entries_at default.now self.old) }
        ensures len { IfOk result (λ entries. vec_len entries ≡ length default.now) }
        ensures sound { IfOk result (λ entries. All (λ state. 0 < state) entries.items) }
    {
        let mut entries = Vec::new(alloc);
        for state in default {
            let entry = self.entry(*state)?;
            entries.push(entry)?;
        }
        Ok(entries)
    }

    /// quant_table_set_count, the sets, and states_coded of each.
    #[tactic(auto, unfolding(crate::specs::Reading::all_sets_at))]
    pub(crate) fn table_sets(&mut self, alloc: Global) -> Result<Vec<TableSet>, RecordFault>
        ensures gives { Leaves (λ sets. sets.items) result self.new (all_sets_at self.old) }
        ensures sound { IfOk result (λ sets. AreSets sets.items) }
    {
        let count = self.number()?;
        if !(1 <= count && count <= 8) {
            return Err(RecordFault::Tables);
        }
        let sets = self.sets(alloc, count)?;
        self.no_initial_states(count)?;
        Ok(sets)
    }

    // So many sets.
    fn sets(&mut self, alloc: Global, count: u32) -> Result<Vec<TableSet>, RecordFault>
        ensures gives { Leaves (λ sets. sets.items) result self.new (sets_at count self.old) }
        ensures len { IfOk result (λ sets. vec_len sets ≡ count) }
        ensures sound { IfOk result (λ sets. All AreSetRuns sets.items) }
    {
        let mut sets = Vec::new(alloc);
        for _ in 0..count {
            let set = self.set(alloc)?;
            sets.push(set)?;
        }
        Ok(sets)
    }

    // states_coded of so many sets.
    fn no_initial_states(&mut self, count: u32) -> Result<(), RecordFault>
        ensures { Leaves (λ _. tt) result self.new (states_at count self.old) }
    {
        for _ in 0..count {
            if self.flag() {
                return Err(RecordFault::InitialStates);
            }
        }
        Ok(())
    }

    // A set of five tables.
    fn set(&mut self, alloc: Global) -> Result<TableSet, RecordFault>
        ensures gives { Leaves (λ set. set) result self.new (tables_at 5 1 self.old) }
        ensures sound { IfOk result AreSetRuns }
    {
        let mut tables = Vec::new(alloc);
        let mut scale = 1;
        for _ in 0..5u32 {
            let (runs, next) = self.table(alloc, scale)?;
            tables.push(runs)?;
            scale = next;
        }
        Ok(TableSet {
            tables,
            context_count: scale.div_ceil(2),
        })
    }

    // The runs of a table, with a fresh set of their own, and the scale after it.
    #[tactic(auto, unfolding(crate::specs::Reading::table_at))]
    fn table(&mut self, alloc: Global, scale: u32) -> Result<(Runs, u32), RecordFault>
        requires { scale ≤ MAX_SCALE }
        ensures gives { Leaves (λ table. (table.0.lengths.items, table.1)) result self.new (table_at scale self.old) }
        ensures runs { IfOk result (λ table. AreRuns table.0.lengths.items) }
        ensures next { IfOk result (λ table. table.1 ≡ next_scale scale table.0.lengths.items) }
        ensures small { IfOk result (λ table. table.1 ≤ MAX_SCALE) }
    {
        let fields = self.set;
        self.set = States::fresh();
        let lengths = self.runs(alloc)?;
        self.set = fields;
        let next = scale * (2 * lengths.len() as u32 - 1);
        if next <= MAX_SCALE {
            Ok((Runs { lengths }, next))
        } else {
            Err(RecordFault::Tables)
        }
    }

    // The lengths of a table's runs.
    fn runs(&mut self, alloc: Global) -> Result<Vec<u8>, RecordFault>
        ensures gives { Leaves (λ runs. runs.items) result self.new (runs_at 128 128 self.old) }
        ensures runs { IfOk result (λ runs. AreRuns runs.items) }
        ensures some { IfOk result (λ runs. 1 ≤ length runs.items) }
        ensures few { IfOk result (λ runs. length runs.items ≤ 128) }
    {
        let mut runs = Vec::new(alloc);
        let mut left = 128;
        for _ in 0..128u32 {
            if left == 0 {
                break;
            }
            let less = self.number()?;
            if less >= left {
                return Err(RecordFault::Tables);
            }
            runs.push(less as u8 + 1)?;
            left -= less + 1;
        }
        Ok(runs)
    }
}
