//! The beginning of a session: the script is read, its clips are loaded, and they are made a library of the script's format.

ghost use Rattle.std.specs.Prelude.{◌≡◌, ◌≤◌, IfOk, OnOk, length, map};
ghost use Rattle.tl_limits.specs.Limits.{max_clips};
ghost use Rattle.script_lang.specs.ScriptSound.{IsFormat, IsScript};
ghost use Rattle.timeline_app.specs.Head.{coder_for, format_for};
ghost use Rattle.timeline_app.specs.Session.{fetched_by};
ghost use Rattle.timeline_app.specs.Opening.{OpensLibrary};

use crate::session::{HeadStop, open};
use clip_store::{Format, Library};
use ffv1_record::Coder;
use pic_planes::Shape;
use play_head::clip_number;
use script_lang::{ChromaWord, ClipLine, CoderWord, FormatLine, Script, chroma_planes};
use std::alloc::{AllocError, Global};
use tl_model::Clips;
use tl_ports::Store;

/// A session that is begun.
#[derive(Drop)]
pub struct Opening {
    pub script: Script,
    pub clips: Clips,
    pub library: Library,
}

/// The names and starts of a script's clips, in order.
fn clips_of(alloc: Global, lines: &[ClipLine]) -> Result<Clips, AllocError>
    ensures { IfOk result (λ clips. clips ≡ map (λ line. (line.name, line.start)) lines.now) }
{
    let mut items = Vec::new(alloc);
    for line in lines {
        let name = line.name.copy(alloc)?;
        items.push((name, line.start))?;
    }
    Ok(Clips::from_vec(items))
}

fn coder_for(word: CoderWord) -> Coder
    ensures { result ≡ coder_for word }
{
    match word {
        CoderWord::Range => Coder::Range,
        CoderWord::Rice => Coder::Rice,
    }
}

/// The format that a line asks for.
fn format_for(clips: &Clips, line: &FormatLine) -> Format
    requires sound { IsFormat (map (λ clip. clip.0) clips.now) line.now }
    requires few { length clips.now ≤ max_clips }
    ensures { result ≡ format_for clips.now line.now }
{
    match line {
        FormatLine::As { name } => Format::As(clip_number(clips, name)),
        FormatLine::Own {
            width,
            height,
            chroma,
            coder,
            columns,
            rows,
        } => Format::Own {
            shape: Shape::of(*width, *height, chroma_planes(*chroma)).unwrap(),
            coder: coder_for(*coder),
            h: *columns,
            v: *rows,
        },
    }
}

/// Fetches and reads the script of this name, loads its clips, and makes them a library of its format.
pub fn open_library<T: Store>(alloc: Global, store: &mut T, name: &str) -> Result<Opening, HeadStop>
    ensures opens { OpensLibrary (fetched_by T.tells (T.seen store.old) (T.seen store.new)) name.now result }
    ensures sound { IfOk result (λ opening. IsScript opening.script) }
    ensures few { IfOk result (λ opening. length opening.clips ≤ max_clips) }
    ensures same { OnOk result (T.seen store.new ≡ T.seen store.old) }
    ensures files { (T.seen store.new).file ≡ (T.seen store.old).file }
{
    let (script, shelf) = open(alloc, store, name)?;
    let Ok(clips) = clips_of(alloc, script.clips.as_slice()) else {
        return Err(HeadStop::NoMemory);
    };
    let format = format_for(&clips, &script.format);
    match shelf.ready(alloc, format) {
        Ok(library) => Ok(Opening {
            script,
            clips,
            library,
        }),
        Err(_) => Err(HeadStop::NoMemory),
    }
}
