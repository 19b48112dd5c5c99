//! Each call that one pass tries, while another holds the turn and after it left; and passes that meet.

mod spending;
mod waiting;

ghost use Rattle.std.specs.Prelude.{◌≡◌, []};
ghost use Rattle.tl_model.specs.Edit.{IsEdit};
ghost use Rattle.studio.specs.Known.{Knows};

use super::{Pass, Studio};
use crate::tries::Try;
use render_core::Stopper;
use std::alloc::Global;
use std::sync::Wait;
use test_media::Blanks;
use time_list::{Lane, ListLane};
use tl_model::{Edit, EditReply, Media, Name, Side};

/// How many entries there were, where the turn was taken.
fn seen_of<A: Drop>(tried: Try<A, ()>) -> Option<u64> {
    match tried {
        Try::Done(_) => None,
        Try::Busy { seen, back: () } => Some(seen),
    }
}

/// An edit, an undo, a redo, a want, a cancellation and two notes.
fn tried_edits<M: Media + Drop, L: Lane>(
    alloc: Global,
    studio: &Studio<M, L>,
    pass: &mut Pass<M, L>,
    edit: &Edit,
) -> [Option<u64>; 7]
    requires knows { Knows M.library studio.now pass.old }
    requires edit { IsEdit edit.now }
    ensures { Knows M.library studio.now pass.new }
{
    [
        seen_of(studio.try_edit(alloc, pass, edit)),
        seen_of(studio.try_undo(alloc, pass)),
        seen_of(studio.try_redo(alloc, pass)),
        seen_of(studio.try_want(pass, 0, 1)),
        seen_of(studio.try_cancel(pass, 0, 1)),
        seen_of(studio.try_mark(pass, 1)),
        seen_of(studio.try_skip(pass)),
    ]
}

/// A play, a show and an ask for an export.
fn tried_plays<M: Media + Drop, L: Lane>(
    alloc: Global,
    studio: &Studio<M, L>,
    pass: &mut Pass<M, L>,
    name: &Name,
) -> [Option<u64>; 3]
    requires knows { Knows M.library studio.now pass.old }
    ensures { Knows M.library studio.now pass.new }
{
    [
        seen_of(studio.try_play(pass, 0)),
        seen_of(studio.try_show(alloc, pass, 0)),
        seen_of(studio.try_ask_export(alloc, pass, name)),
    ]
}

/// The tries of a pass while another holds the turn.
fn while_held<R: Wait, M: Media + Drop, L: Lane>(
    rt: &R,
    alloc: Global,
    studio: &Studio<M, L>,
    holder: &mut Pass<M, L>,
    other: &mut Pass<M, L>,
    edit: &Edit,
    name: &Name,
) -> ([Option<u64>; 7], [Option<u64>; 3])
    requires holder { Knows M.library studio.now holder.old }
    requires other { Knows M.library studio.now other.old }
    requires edit { IsEdit edit.now }
    ensures holder { Knows M.library studio.now holder.new }
    ensures other { Knows M.library studio.now other.new }
{
    let held = studio.turn.enter(rt, holder);
    let edits = tried_edits(alloc, studio, other, edit);
    let plays = tried_plays(alloc, studio, other, name);
    studio.turn.leave(holder, held);
    (edits, plays)
}

/// Stops a session before any other call, which leaves the stopper's owner free to go on.
fn stop_first<R: Wait, M: Media + Drop, L: Lane>(
    rt: &R,
    studio: &Studio<M, L>,
    pass: &mut Pass<M, L>,
    stopper: Stopper,
)
    requires knows { Knows M.library studio.now pass.old }
    requires main { pass.old.number ≡ 0 }
    requires first { pass.old.seen ≡ [] }
    ensures { Knows M.library studio.now pass.new }
{
    studio.stop(rt, pass, stopper);
}

/// Pass 1 tries while pass 0 holds the turn over two entries, the stop and an edit, and again when it is free.
#[test]
fn each_try_is_busy_while_another_pass_holds_the_turn(rt: HostRuntime) {
    let started: (Studio<Blanks, ListLane>, Pass<Blanks, ListLane>, Stopper) = Studio::start(
        rt.alloc(),
        Blanks,
        4,
        100,
    ).expect(&rt, "memory");
    let (studio, mut main, stopper) = started;
    let mut one = studio.split(&mut main);
    stop_first(&rt, &studio, &mut main, stopper);
    let edit = Edit::Insert {
        at: 0,
        take: Side::Black,
        len: 3,
    };
    assert!(rt; edit.is_well_formed());
    let edited = studio
        .edit(&rt, rt.alloc(), &mut main, &edit)
        .expect(&rt, "room");
    assert_eq!(rt; edited, EditReply::Ok { len: 3 });
    let text = String::from_str(rt.alloc(), "o.mkv").expect(&rt, "memory");
    let name = Name::from_text(text);
    let told = while_held(&rt, rt.alloc(), &studio, &mut main, &mut one, &edit, &name);
    assert!(rt; told == ([Some(2); 7], [Some(2); 3]));
    assert!(rt; tried_edits(rt.alloc(), &studio, &mut one, &edit) == [None; 7]);
    assert!(rt; tried_plays(rt.alloc(), &studio, &mut one, &name) == [None; 3]);
    studio.meet(&mut main, &mut one);
}
