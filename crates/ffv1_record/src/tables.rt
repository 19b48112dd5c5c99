//! Quantization tables, as the lengths of their runs. RFC 9043 sections 3.4 and 4.1.
ghost use Rattle.std.specs.Prelude.{◌≡◌, map};
ghost use Rattle.ffv1_record.specs.Tables.{AreSetRuns, set_of};

use crate::entries::Tables;
use std::marker::Model;

/// The lengths of the runs of one table, together 128.
#[derive(Debug, Drop)]
pub(crate) struct Runs {
    pub(crate) lengths: Vec<u8>,
}

/// A set of five quantization tables, and how many contexts they give.
#[derive(Debug, Drop)]
pub struct TableSet {
    pub(crate) tables: Vec<Runs>,
    pub(crate) context_count: u32,
}

// Clauses see the lengths of the runs of each table.
impl Model for TableSet {
    ghost use Rattle.std.specs.Prelude.{◌≡◌, ℕ, List, map};
    ghost use Rattle.ffv1_record.specs.declared.tables.Runs.{Runs};
    ghost use Rattle.ffv1_record.specs.Tables.{set_of};

    ghost Value = { List (List ℕ) };

    ghost view = { λ a. map (λ t. t.lengths.items) a.tables.items };

    ghost invariant = { λ a. a.context_count ≡ (set_of (map (λ t. t.lengths.items) a.tables.items)).context_count };
}

impl TableSet {
    /// How many contexts the tables give: half of the scale after the fifth, rounded up. RFC 9043 section 4.1.
    pub fn context_count(&self) -> u32
        ensures { result ≡ (set_of self.now).context_count }
    {
        self.context_count
    }
}

impl TableSet {
    // Gives the entries of the tables.
    pub(crate) fn fill(&self, tables: &mut Tables)
        requires { AreSetRuns self.now }
        ensures { tables.new ≡ (set_of self.now).tables }
    {
        tables.fill(self.tables.as_slice());
    }
}
