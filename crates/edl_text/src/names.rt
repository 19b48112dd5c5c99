//! What the rows of an edit list say together: its title, its names and its events.

ghost use Rattle.std.specs.Prelude.{◌≡◌, ℕ, ◌<◌, ◌^◌, [], map, length, IfOk, OnOk, None, Some, option_map, nat_eq, ◌==◌, if◌then◌else◌};
ghost use Rattle.std.specs.Map.{lookup};
ghost use Rattle.std.specs.Option.{option_or};
ghost use Rattle.edl_text.specs.Row.{said};
ghost use Rattle.edl_text.specs.List.{title_of, number_after, name_in, with_name, names_from, name_of};
ghost use Rattle.edl_text.specs.declared.row.Side.TheVariants.{From, To};
ghost use Rattle.edl_text.specs.Names.{name_at};

use crate::row::{Row, Side};
use std::alloc::{AllocError, Global};
use std::collections::HashMap;

/// The first title, or an empty text.
#[tactic(auto, unfolding(crate::specs::List::title_of))]
pub fn title_of<'a>(rows: &[Row<'a>]) -> &'a str
    ensures { result.now ≡ title_of (map said rows.now) }
{
    for row in rows {
        if let Row::Title { text } = row {
            return text;
        }
    }
    ""
}

fn number_after(above: Option<u32>, row: &Row<'_>) -> Option<u32>
    ensures { result ≡ number_after above (said row.now) }
{
    match row {
        Row::Other { number } => Some(*number),
        Row::Video(shown) => Some(shown.number),
        _ => above,
    }
}

fn name_in<'a>(side: Side, row: &Row<'a>) -> Option<&'a str>
    ensures { option_map (λ text. text.now) result ≡ name_in side (said row.now) }
{
    match (side, row) {
        (Side::From, Row::From { text }) => Some(*text),
        (Side::To, Row::To { text }) => Some(*text),
        _ => None,
    }
}

pub type Names<'a> = HashMap<u32, &'a str>;

/// Keeps a name where its number has none yet.
fn put_name<'a>(names: &mut Names<'a>, number: u32, text: &'a str) -> Result<(), AllocError>
    ensures { OnOk result ((other : ℕ) → name_at names.new other
        ≡ option_or (name_at names.old other) (if number == other then Some text.now else None)) }
{
    if !names.contains_key(&number) {
        names.insert(number, text)?;
    }
    Ok(())
}

/// The same where there is both an event above and a name.
fn keep_name<'a>(
    names: &mut Names<'a>,
    above: Option<u32>,
    text: Option<&'a str>,
) -> Result<(), AllocError>
    ensures { OnOk result ((other : ℕ) → name_at names.new other ≡ option_or (name_at names.old other)
        (lookup (λ number. number == other) (with_name above (option_map (λ x. x.now) text.entry) []))) }
{
    if let (Some(number), Some(text)) = (above, text) {
        put_name(names, number, text)?;
    }
    Ok(())
}

/// The names of one side by number: the first counts.
fn names_of<'a>(alloc: Global, side: Side, rows: &[Row<'a>]) -> Result<Names<'a>, AllocError>
    ensures { IfOk result (λ names. (number : ℕ) → name_at names number ≡ name_of side (map said rows.now) number) }
{
    let mut names = HashMap::new(alloc);
    let mut above = None;
    for row in rows {
        keep_name(&mut names, above, name_in(side, row))?;
        above = number_after(above, row);
    }
    Ok(names)
}

/// The names of both sides by number.
#[derive(Drop)]
pub struct NameMaps<'a> {
    pub from: Names<'a>,
    pub to: Names<'a>,
}

pub fn all_names<'a>(alloc: Global, rows: &[Row<'a>]) -> Result<NameMaps<'a>, AllocError>
    ensures from { IfOk result (λ maps. (number : ℕ) → name_at maps.from number ≡ name_of From (map said rows.now) number) }
    ensures to { IfOk result (λ maps. (number : ℕ) → name_at maps.to number ≡ name_of To (map said rows.now) number) }
{
    Ok(NameMaps {
        from: names_of(alloc, Side::From, rows)?,
        to: names_of(alloc, Side::To, rows)?,
    })
}
