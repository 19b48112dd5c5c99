//! What the reader of a script keeps of the lines before one.

ghost use Rattle.std.specs.Prelude.{◌≡◌, ◌||◌, List, ℕ, OnOk};
ghost use Rattle.std.specs.Str.{bytes_eq};
ghost use Rattle.script_lang.specs.ScriptText.{nothing, with_body};
ghost use Rattle.script_lang.specs.State.{has_word, begun, Keeps, Took};

use crate::script::{BodyLine, Call, ClipLine, FormatLine};
use std::alloc::{AllocError, Global};
use std::collections::HashSet;

/// Words of a text.
pub type WordSet<'a> = HashSet<&'a str>;

/// What the lines so far say, with the names of clips, the files that clips and edit lists are read from, and those of exports.
#[derive(Drop)]
pub struct State<'a> {
    pub rate: Option<u32>,
    pub clips: Vec<ClipLine>,
    pub format: Option<FormatLine>,
    pub body: Vec<BodyLine>,
    pub names: WordSet<'a>,
    pub read: WordSet<'a>,
    pub exported: WordSet<'a>,
}

/// Before the first line.
pub fn empty_state<'a>(alloc: Global) -> State<'a>
    ensures begun { begun result ≡ nothing }
    ensures keeps { Keeps result }
{
    State {
        rate: None,
        clips: Vec::new(alloc),
        format: None,
        body: Vec::new(alloc),
        names: HashSet::new(alloc),
        read: HashSet::new(alloc),
        exported: HashSet::new(alloc),
    }
}

pub fn has_word(set: &WordSet<'_>, word: &str) -> bool
    ensures { result ≡ has_word set.now word.now }
{
    set.contains(word)
}

pub fn put_word<'a>(set: &mut WordSet<'a>, word: &'a str) -> Result<(), AllocError>
    ensures { OnOk result ((other : List ℕ) → has_word set.new other ≡ (bytes_eq word.now other || has_word set.old other)) }
{
    set.insert(word)?;
    Ok(())
}
