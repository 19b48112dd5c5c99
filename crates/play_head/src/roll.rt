//! Rolls: the calls that play a range of frames.

ghost use Rattle.std.specs.Prelude.{◌≡◌, ◌∷◌, [], IfSome, MatchOption};
ghost use Rattle.tl_limits.specs.Limits.{IsSmall, IsFrameCount};
ghost use Rattle.play_head.specs.Roll.{roll_calls, IsRollCall};

use std::marker::Model;
use tl_model::Act;

/// How many frames are wanted ahead of the one that is played.
const AHEAD: u32 = 8;

/// Frames to be wanted.
#[derive(Clone, Copy)]
struct Due {
    first: u32,
    len: u32,
}

/// A roll over `len` frames from `first` on, of which `played` were played.
#[derive(Drop)]
pub struct Roll {
    first: u32,
    len: u32,
    played: u32,
    due: Option<Due>,
}

// Clauses see the calls that are left.
impl Model for Roll {
    ghost use Rattle.std.specs.Prelude.{◌≤◌, ◌++◌, List};
    ghost use Rattle.tl_limits.specs.Limits.{IsSmall};
    ghost use Rattle.tl_model.specs.declared.journal.Act.{Act};
    ghost use Rattle.play_head.specs.RollLeft.{due_calls, frames_left};

    ghost Value = { List Act };

    ghost view = { λ r. due_calls r.due ++ frames_left r.first r.len r.played };

    ghost invariant = { λ r. IsSmall r.first × IsSmall r.len × (r.played ≤ r.len) };
}

impl Roll {
    /// The roll over `len` frames from `first` on: the first eight are wanted, or all where there are fewer; then each is
    /// played, and after it the frame eight on is wanted, where there is one.
    pub fn over(first: u32, len: u32) -> Roll
        requires first { IsSmall first }
        requires len { IsFrameCount len }
        ensures { result ≡ roll_calls first len }
    {
        let due = Some(Due {
            first,
            len: len.min(AHEAD),
        });
        Roll {
            first,
            len,
            played: 0,
            due,
        }
    }

    /// The next call, or none after the last.
    pub fn next(&mut self) -> Option<Act>
        ensures calls { MatchOption result ((self.old ≡ []) × (self.new ≡ [])) (λ act. self.old ≡ act ∷ self.new) }
        ensures kind { IfSome result IsRollCall }
    {
        if let Some(due) = self.due {
            self.due = None;
            return Some(Act::Want {
                first: due.first,
                len: due.len,
            });
        }
        if self.played == self.len {
            return None;
        }
        let n = self.first + self.played;
        if self.len - self.played > AHEAD {
            self.due = Some(Due {
                first: n + AHEAD,
                len: 1,
            });
        }
        self.played += 1;
        Some(Act::Play { n })
    }
}
