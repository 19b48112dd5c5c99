//! A call that another pass makes meanwhile, and what it leaves: a busy turn keeps what is to be spent, and a play finds what
//! another pass wanted.

ghost use Rattle.studio.specs.Known.{Knows};

use super::spending::{ended_one, filed_one, released_one, stopped};
use super::stop_first;
use crate::studio::{Pass, Studio};
use render_core::{AskReply, FileReply, PlayReply, ReleaseReply, Stopper};
use test_media::Numbers;
use time_list::{Lane, ListLane};
use tl_model::{Edit, Media, Name, Recipe, Side};

/// How many entries there are. The pass has then seen as many.
fn looked<M: Media + Drop, L: Lane>(studio: &Studio<M, L>, pass: &mut Pass<M, L>) -> u64
    requires { Knows M.library studio.now pass.old }
    ensures { Knows M.library studio.now pass.new }
{
    studio.turn.look(pass)
}

/// Pass 1 takes jobs and an export and ends them, each call tried first while pass 2 holds the turn. Then pass 0 stops, which is
/// tried first while pass 1 holds it.
#[test]
fn what_a_busy_call_would_spend_comes_back(rt: HostRuntime) {
    let started: (Studio<Numbers, ListLane>, Pass<Numbers, ListLane>, Stopper) = Studio::start(
        rt.alloc(),
        Numbers,
        4,
        100,
    ).expect(&rt, "memory");
    let (studio, mut main, stopper) = started;
    let mut one = studio.split(&mut main);
    let mut two = studio.split(&mut main);
    let edit = Edit::Insert {
        at: 0,
        take: Side::Clip { clip: 0, frame: 0 },
        len: 2,
    };
    assert!(rt; edit.is_well_formed());
    assert!(rt; studio.edit(&rt, rt.alloc(), &mut one, &edit).is_ok());
    assert!(rt; studio.want(&rt, &mut one, 0, 2).is_ok());
    let given = released_one(&rt, &studio, &mut two, &mut one);
    assert!(rt; given == Some((2, 3, 1, ReleaseReply::Released)));
    let made = filed_one(&rt, rt.alloc(), &studio, &mut two, &mut one);
    assert!(rt; made == Some((4, 5, 1, FileReply::Filed)));
    let name = Name::from_text(String::from_str(rt.alloc(), "o.mkv").expect(&rt, "memory"));
    let asked = studio.ask_export(&rt, rt.alloc(), &mut one, &name);
    assert!(rt; asked == Ok(AskReply::Asked { export: 1 }));
    let carried = ended_one(&rt, &studio, &mut two, &mut one);
    assert!(rt; carried == Some((7, 8, 1)));
    let halted = stopped(&rt, &studio, &mut one, &mut main, stopper);
    assert!(rt; halted == Some((9, ())));
}

/// Pass 1 looks when pass 2 has edited and wanted, and then plays a frame that isn't there yet.
#[test]
fn a_play_finds_what_another_pass_wanted(rt: HostRuntime) {
    let started: (Studio<Numbers, ListLane>, Pass<Numbers, ListLane>, Stopper) = Studio::start(
        rt.alloc(),
        Numbers,
        4,
        100,
    ).expect(&rt, "memory");
    let (studio, mut main, stopper) = started;
    let mut one = studio.split(&mut main);
    let mut two = studio.split(&mut main);
    let edit = Edit::Insert {
        at: 0,
        take: Side::Clip { clip: 0, frame: 0 },
        len: 4,
    };
    assert!(rt; edit.is_well_formed());
    assert!(rt; studio.edit(&rt, rt.alloc(), &mut two, &edit).is_ok());
    assert!(rt; studio.want(&rt, &mut two, 3, 1).is_ok());
    assert_eq!(rt; looked(&studio, &mut one), 2);
    let pending = match studio.play(&rt, &mut one, 3) {
        Ok(PlayReply::Pending { recipe }) => Some(recipe),
        _ => None,
    };
    assert!(rt; pending == Some(Recipe::Source { clip: 0, frame: 3 }));
    assert_eq!(rt; looked(&studio, &mut one), 3);
    stop_first(&rt, &studio, &mut main, stopper);
}
