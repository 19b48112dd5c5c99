//! The edit that a line asks for, over the session's clips.

ghost use Rattle.std.specs.Prelude.{◌≡◌, ◌≤◌, length, IfSome};
ghost use Rattle.std.specs.Str.{bytes_eq};
ghost use Rattle.tl_limits.specs.Limits.{IsSmall, max_clips, max_frames};
ghost use Rattle.tl_model.specs.Edit.{IsEdit, IsSideWithin};
ghost use Rattle.script_lang.specs.ScriptSound.{IsCall};
ghost use Rattle.play_head.specs.Acts.{clip_number, side_of, place_edit, edit_for};

use script_lang::Call;
use tl_model::{Clips, Edit, Name, Side};

/// Whether a clip has a name.
fn is_named(clip: &Name, name: &Name) -> bool
    ensures { result ≡ bytes_eq clip.now name.now }
{
    clip.as_str().as_bytes() == name.as_str().as_bytes()
}

/// The number of the first clip of a name, or the number of clips where none has it.
pub fn clip_number(clips: &Clips, name: &Name) -> u32
    requires { length clips.now ≤ max_clips }
    ensures number { result ≡ clip_number clips.now name.now }
    ensures within { result ≤ max_clips }
{
    let mut number = 0;
    for (other, _) in clips.as_slice() {
        if is_named(other, name) {
            return number;
        }
        number += 1;
    }
    number
}

/// The frames of a clip from one on, or black.
fn side_of(clips: &Clips, name: &Name, first: u32) -> Side
    requires clips { length clips.now ≤ max_clips }
    requires first { IsSmall first }
    ensures side { result ≡ side_of clips.now name.now first }
    ensures within { IsSideWithin max_frames result }
{
    if name.as_str().as_bytes() == b"black".as_slice() {
        Side::Black
    } else {
        Side::Clip {
            clip: clip_number(clips, name),
            frame: first,
        }
    }
}

/// The edit of a line that names no clip.
fn place_edit(call: &Call) -> Option<Edit>
    requires { IsCall call.now }
    ensures edit { result ≡ place_edit call.now }
    ensures sound { IfSome result IsEdit }
{
    match call {
        Call::Extract { at, len } => Some(Edit::Extract { at: *at, len: *len }),
        Call::Lift { at, len } => Some(Edit::Lift { at: *at, len: *len }),
        Call::Split { at } => Some(Edit::Split { at: *at }),
        Call::TrimIn { at, by } => Some(Edit::TrimIn { at: *at, by: *by }),
        Call::TrimOut { at, by } => Some(Edit::TrimOut { at: *at, by: *by }),
        Call::Slip { at, by } => Some(Edit::Slip { at: *at, by: *by }),
        Call::Dissolve { at, len } => Some(Edit::Dissolve { at: *at, len: *len }),
        _ => None,
    }
}

/// The edit that a line asks for, if its call is an edit of a place.
pub(crate) fn edit_for(clips: &Clips, call: &Call) -> Option<Edit>
    requires clips { length clips.now ≤ max_clips }
    requires call { IsCall call.now }
    ensures edit { result ≡ edit_for clips.now call.now }
    ensures sound { IfSome result IsEdit }
{
    match call {
        Call::Insert {
            at,
            name,
            first,
            len,
        } => Some(Edit::Insert {
            at: *at,
            take: side_of(clips, name, *first),
            len: *len,
        }),
        Call::Overwrite {
            at,
            name,
            first,
            len,
        } => Some(Edit::Overwrite {
            at: *at,
            take: side_of(clips, name, *first),
            len: *len,
        }),
        Call::Relink { at, name, first } => Some(Edit::Relink {
            at: *at,
            clip: clip_number(clips, name),
            first: *first,
        }),
        _ => place_edit(call),
    }
}
