//! Which cells of the grid are covered. RFC 9043 section 4.6.
ghost use Rattle.std.specs.Prelude.{◌≡◌, ◌+◌, ◌*◌, ◌≤◌, MatchOption, count_by, nat_le, nat_lt, ◌&&◌};
ghost use Rattle.tl_limits.specs.Limits.{max_slices};
ghost use Rattle.ffv1_frame.specs.Cover.{has_cell, cover_count, AreCovered, IsUncovered};

use ffv1_slice::Header;

/// The first cell, row by row, that isn't covered by exactly one slice.
pub(crate) fn first_uncovered(headers: &[Header], columns: u32, rows: u32) -> Option<u32>
    requires some { 1 ≤ columns }
    requires few { columns * rows ≤ max_slices }
    ensures { MatchOption result (AreCovered columns headers.now (columns * rows)) (IsUncovered columns rows headers.now) }
{
    for cell in 0..columns * rows {
        if cover_count(headers, cell % columns, cell / columns) != 1 {
            return Some(cell);
        }
    }
    None
}

// How many slices have a cell.
fn cover_count(headers: &[Header], column: u32, row: u32) -> usize
    ensures { result ≡ count_by (has_cell column row) headers.now }
{
    let mut count = 0;
    for header in headers {
        if has_cell(*header, column, row) {
            count += 1;
        }
    }
    count
}

fn has_cell(header: Header, column: u32, row: u32) -> bool
    ensures { result ≡ has_cell column row header }
{
    is_within(column, header.x, header.columns) && is_within(row, header.y, header.rows)
}

fn is_within(place: u32, first: u32, count: u32) -> bool
    ensures { result ≡ (nat_le first place && nat_lt place (first + count)) }
{
    first <= place && u64::from(place) < u64::from(first) + u64::from(count)
}
