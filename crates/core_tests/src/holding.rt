//! Jobs that passes hold.

use crate::printing::{file_text, full_text, recipe_text, release_text};
use render_core::{Board, Claim, ClaimReply, Full};
use std::alloc::{AllocError, Global};
use std::marker::Model;
use std::process::Abort;
use test_media::Numbers;
use time_list::Lane;
use tl_model::Rendered;

/// A board over the library of numbers.
pub type Numbered<L> = Board<Numbers, L>;

/// A claim whose recipe can be rendered.
pub struct Hand {
    claim: Claim,
}

impl Model for Hand {
    ghost use Rattle.tl_model.specs.Media.{CanRender};
    ghost use Rattle.render_core.specs.Claim.{ClaimOf};
    ghost use Rattle.test_media.specs.Numbers.{numbers};

    ghost Value = { ClaimOf };

    ghost view = { λ h. h.claim };

    ghost invariant = { λ h. CanRender numbers h.claim.recipe };
}

/// What the passes 0, 1 and 2 hold.
pub struct Hands {
    pub zero: Option<Hand>,
    pub one: Option<Hand>,
    pub two: Option<Hand>,
}

pub fn hand_of(hands: &mut Hands, pass: u32) -> &mut Option<Hand> {
    match pass {
        0 => &mut hands.zero,
        1 => &mut hands.one,
        _ => &mut hands.two,
    }
}

pub fn claim_text<L: Lane>(
    rt: &impl Abort,
    alloc: Global,
    board: &mut Numbered<L>,
    pass: u32,
    hand: &mut Option<Hand>,
) -> Result<String, AllocError> {
    match board.claim(pass) {
        Ok(ClaimReply::Claimed(claim)) => {
            let job = claim.job();
            let recipe = claim.recipe();
            match hand.replace(Hand { claim }) {
                None => {}
                Some(_) => panic!(rt; "pass {pass} holds a job"),
            }
            let taken = recipe_text(alloc, recipe)?;
            format!(in alloc; "claimed {job} {taken}")
        }
        Ok(ClaimReply::Idle { len }) => format!(in alloc; "idle {len}"),
        Ok(ClaimReply::Stopped { len }) => format!(in alloc; "stopped {len}"),
        Err(why) => full_text(alloc, why),
    }
}

/// Ends a job with its result, where memory is wanting by a second try, and where that fails too it is given back.
pub fn file_claim<L: Lane>(
    rt: &impl Abort,
    alloc: Global,
    board: &mut Numbered<L>,
    pass: u32,
    hand: Hand,
) -> Result<String, AllocError> {
    let Hand { claim } = hand;
    assert!(rt; board.holds(pass, &claim));
    let rendered = Rendered::make(alloc, &Numbers, claim.recipe()).expect(rt, "memory");
    match board.file(pass, claim, rendered) {
        Ok(reply) => file_text(alloc, reply),
        Err((claim, rendered, _)) => match board.file(pass, claim, rendered) {
            Ok(reply) => file_text(alloc, reply),
            Err((claim, _, _)) => {
                let _ = board.release(pass, claim);
                full_text(alloc, Full::NoMemory)
            }
        },
    }
}

pub fn release_claim<L: Lane>(
    rt: &impl Abort,
    alloc: Global,
    board: &mut Numbered<L>,
    pass: u32,
    hand: Hand,
) -> Result<String, AllocError> {
    let Hand { claim } = hand;
    assert!(rt; board.holds(pass, &claim));
    let reply = board.release(pass, claim);
    release_text(alloc, reply)
}

/// Gives back what a pass holds.
pub fn let_go<L: Lane>(rt: &impl Abort, board: &mut Numbered<L>, pass: u32, hand: Option<Hand>) {
    match hand {
        None => {}
        Some(Hand { claim }) => {
            assert!(rt; board.holds(pass, &claim));
            let _ = board.release(pass, claim);
        }
    }
}
