//! The record that an encoder of its own starts from.
ghost use Rattle.std.specs.Prelude.{◌≡◌, ◌≤◌, List, ℕ, [], ◌∷◌, map, true, IfOk};
ghost use Rattle.pic_planes.specs.Shape.{Layout};
ghost use Rattle.ffv1_record.specs.Default.{coder_type_of, fine_runs, one_run, default_runs, default_parameters};
ghost use Rattle.pic_planes.specs.Grid.{IsGrid, ReachesEnds};
ghost use Rattle.ffv1_record.specs.Suits.{Suits};

use crate::record::{Coder, Record};
use crate::tables::{Runs, TableSet};
use pic_planes::Shape;
use std::alloc::{AllocError, Global};

/// The record of an encoder: range or Golomb-Rice coded by the default state transition table, with one set of tables of 365
/// contexts, error correction, and key frames only. `h` and `v` are the columns and rows of slices; the grid isn't larger than the
/// shape, and its slices reach the ends of the planes.
#[tactic(auto, using(crate::proofs::Defaults::default_sound))]
pub fn default_record(
    alloc: Global,
    shape: Shape,
    coder: Coder,
    h: u32,
    v: u32,
) -> Result<Record, AllocError>
    requires grid { IsGrid h v }
    requires columns { h ≤ shape.width }
    requires rows { v ≤ shape.height }
    requires reaches { ReachesEnds h v shape.width shape.height shape.chroma }
    ensures fields { IfOk result (λ r. r ≡ default_parameters coder shape.chroma h v) }
    ensures contexts { IfOk result (λ r. map (λ set. set.context_count) r.sets ≡ 365 ∷ []) }
    ensures suits { IfOk result (λ r. Suits r shape) }
{
    let mut sets = Vec::new(alloc);
    let set = default_set(alloc)?;
    sets.push(set)?;
    Ok(Record::of_fields(coder, shape.chroma(), h, v, sets))
}

/// The set of tables that gives 365 contexts: the first three go by the near differences.
pub(crate) fn default_set(alloc: Global) -> Result<TableSet, AllocError>
    ensures { IfOk result (λ set. set ≡ default_runs) }
{
    let mut tables = Vec::new(alloc);
    tables.push(runs(alloc, &[1, 2, 4, 16, 105])?)?;
    tables.push(runs(alloc, &[1, 2, 4, 16, 105])?)?;
    tables.push(runs(alloc, &[1, 2, 4, 16, 105])?)?;
    tables.push(runs(alloc, &[128])?)?;
    tables.push(runs(alloc, &[128])?)?;
    Ok(TableSet {
        tables,
        context_count: 365,
    })
}

fn runs(alloc: Global, lengths: &[u8]) -> Result<Runs, AllocError>
    ensures { IfOk result (λ runs. runs.lengths.items ≡ lengths.now) }
{
    Ok(Runs {
        lengths: Vec::from_slice(alloc, lengths)?,
    })
}
