//! Reading an edit list.

ghost use Rattle.std.specs.Prelude.{◌≡◌, ◌<◌, ◌^◌, map, length, vec_len, All, IfOk, Ok};
ghost use Rattle.std.specs.Str.Lines.{lines};
ghost use Rattle.tl_limits.specs.Limits.{IsRate};
ghost use Rattle.edl_text.specs.Row.{said};
ghost use Rattle.edl_text.specs.Line.{row_of};
ghost use Rattle.edl_text.specs.Timed.{IsTimed};
ghost use Rattle.edl_text.specs.List.{at_line, said_from, edl, Gives};

use crate::assembly::events_of;
use crate::event::{Edl, Events};
use crate::fault::EdlFault;
use crate::label::Text;
use crate::line::row_of;
use crate::names::{all_names, title_of};
use crate::row::Row;
use std::alloc::Global;
use text_words::{Blanks, next_line, words};

/// What line `n` says.
fn row_at<'a>(alloc: Global, n: u32, rate: u32, line: &'a [u8]) -> Result<Row<'a>, EdlFault>
    requires { IsRate rate }
    ensures { Gives said result (at_line n (row_of rate line.now)) }
{
    let words = words(alloc, Blanks::SpaceTab, line)?;
    match row_of(rate, line, &words) {
        Ok(row) => Ok(row),
        Err(why) => Err(EdlFault::Line { n, why }),
    }
}

/// What all lines of a text say.
#[tactic(auto, unfolding(crate::specs::List::said_from))]
fn rows_of<'a>(alloc: Global, rate: u32, text: &'a [u8]) -> Result<Vec<Row<'a>>, EdlFault>
    requires rate { IsRate rate }
    requires lines { length (lines text.now) < 2 ^ 32 }
    ensures exact { Gives (λ v. map said v.items) result (said_from rate 1 (lines text.now)) }
    ensures count { IfOk result (λ v. vec_len v < 2 ^ 32) }
{
    let mut rows = Vec::new(alloc);
    let mut n = 0;
    let mut left = text;
    while let Some((line, rest)) = next_line(left) {
        n += 1;
        rows.push(row_at(alloc, n, rate, line)?)?;
        left = rest;
    }
    Ok(rows)
}

/// The edit list that a text is at a rate, or its first faulty line. Each frame number of a list that was read is below 2^25, and each
/// duration is below 1,000.
#[tactic(auto, unfolding(crate::specs::List::edl))]
pub fn read_edl(alloc: Global, text: &[u8], rate: u32) -> Result<Edl, EdlFault>
    requires rate { IsRate rate }
    requires lines { length (lines text.now) < 2 ^ 32 }
    ensures exact { Gives (λ list. list) result (edl rate text.now) }
    ensures timed { IfOk result (λ list. All IsTimed list.events) }
{
    let rows = rows_of(alloc, rate, text)?;
    let title = Text::copy_of(alloc, title_of(&rows))?;
    let names = all_names(alloc, &rows)?;
    let events = Events::from_vec(events_of(alloc, &names, &rows)?);
    Ok(Edl { title, events })
}
