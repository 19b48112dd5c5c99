//! The entries of quantization tables, from the lengths of their runs. RFC 9043 sections 3.4 and 4.1.
ghost use Rattle.std.specs.Prelude.{◌≡◌, ℕ, ℤ, pos, neg_ℤ, ◌≤ℤ◌, ◌+◌, ◌-◌, ◌*◌, ◌<◌, ◌≤◌, List, [], ◌++◌, length, map, replicate, take, drop, slice_index_or};
ghost use Rattle.ffv1_record.specs.Tables.{AreRuns, AreSetRuns, first_half, table_of, next_scale, tables_from, max_scale};

use crate::tables::Runs;
use std::marker::Model;

/// The entries of the five quantization tables of a set.
#[derive(Debug, Drop)]
pub struct Tables {
    arrays: [[i16; 256]; 5],
}

// Clauses see five lists of 256 entries.
impl Model for Tables {
    ghost use Rattle.std.specs.Prelude.{ℤ, List};

    ghost Value = { List (List ℤ) };

    ghost view = { λ a. a.arrays };
}

impl Tables {
    /// Tables whose entries are all 0.
    pub fn zero() -> Tables
        ensures { result ≡ replicate 5 (replicate 256 (pos 0)) }
    {
        Tables {
            arrays: [[0; 256]; 5],
        }
    }

    /// The entries, table by table.
    #[inline]
    pub fn arrays(&self) -> &[[i16; 256]; 5]
        ensures { result.now ≡ self.now }
    {
        &self.arrays
    }

    // Takes the entries that these runs give.
    pub(crate) fn fill(&mut self, tables: &[Runs])
        requires { AreSetRuns (map (λ t. t.lengths.items) tables.now) }
        ensures { self.new ≡ tables_from 1 (map (λ t. t.lengths.items) tables.now) }
    {
        fill_arrays(tables, &mut self.arrays);
    }
}

fn fill_arrays(tables: &[Runs], arrays: &mut [[i16; 256]; 5])
    requires { AreSetRuns (map (λ t. t.lengths.items) tables.now) }
    ensures { arrays.new ≡ tables_from 1 (map (λ t. t.lengths.items) tables.now) }
{
    let mut scale = 1;
    for i in 0..5usize {
        let lengths = lengths_of(tables, i);
        arrays[i] = table_of(lengths, scale);
        scale = next_scale(lengths, scale);
    }
}

fn lengths_of(tables: &[Runs], i: usize) -> &[u8]
    requires sound { AreSetRuns (map (λ t. t.lengths.items) tables.now) }
    requires table { i < 5 }
    ensures lengths { result.now ≡ slice_index_or (map (λ t. t.lengths.items) tables.now) i [] }
    ensures runs { AreRuns result.now }
{
    tables[i].lengths.as_slice()
}

// The scale after a table.
#[tactic(auto, using(crate::proofs::Runs::few_runs, crate::proofs::Runs::some_runs))]
fn next_scale(lengths: &[u8], scale: u32) -> u32
    requires runs { AreRuns lengths.now }
    requires fits { next_scale scale lengths.now ≤ max_scale }
    ensures { result ≡ next_scale scale lengths.now }
{
    scale * (2 * lengths.len() as u32 - 1)
}

// All 256 entries of a table.
fn table_of(lengths: &[u8], scale: u32) -> [i16; 256]
    requires runs { AreRuns lengths.now }
    requires fits { next_scale scale lengths.now ≤ max_scale }
    ensures { result ≡ table_of scale lengths.now }
{
    let mut table = [0; 256];
    let (half, rest) = table.split_at_mut(128);
    fill_half(lengths, scale, half);
    mirror(half, rest);
    table
}

// The first 128 entries.
fn fill_half(lengths: &[u8], scale: u32, half: &mut [i16])
    requires runs { AreRuns lengths.now }
    requires fits { next_scale scale lengths.now ≤ max_scale }
    requires half { length half.old ≡ 128 }
    ensures { half.new ≡ map pos (first_half scale 0 lengths.now) }
{
    let mut from = 0;
    for i in 0..lengths.len() {
        let end = from + lengths[i] as usize;
        fill_run(half, from, end, scaled(scale, i));
        from = end;
    }
}

// The entry of a run, counted from 0.
fn scaled(scale: u32, run: usize) -> i16
    requires { scale * run ≤ 32767 }
    ensures { result ≡ pos (scale * run) }
{
    (scale as usize * run) as i16
}

// Gives entries from one place up to another one value.
fn fill_run(half: &mut [i16], from: usize, end: usize, entry: i16)
    requires order { from ≤ end }
    requires within { end ≤ length half.old }
    ensures { half.new ≡ take from half.old ++ (replicate (end - from) entry ++ drop end half.old) }
{
    half[from..end].fill(entry);
}

// The last 128 entries: entry 128 is minus entry 127, and entry 256 - k minus entry k.
fn mirror(half: &[i16], rest: &mut [i16])
    requires half { length half.now ≡ 128 }
    requires rest { length rest.old ≡ 128 }
    requires none_below { (k : ℕ) → pos 0 ≤ℤ slice_index_or half.now k (pos 0) }
    ensures first { slice_index_or rest.new 0 (pos 0) ≡ neg_ℤ (slice_index_or half.now 127 (pos 0)) }
    ensures others { (k : ℕ) → 1 ≤ k → k < 128 → slice_index_or rest.new k (pos 0) ≡ neg_ℤ (slice_index_or half.now (128 - k) (pos 0)) }
{
    rest[0] = negated(half[127]);
    for k in 1..128usize {
        rest[k] = negated(half[128 - k]);
    }
}

fn negated(entry: i16) -> i16
    requires { pos 0 ≤ℤ entry }
    ensures { result ≡ neg_ℤ entry }
{
    -entry
}
