//! Calls that are drawn.

ghost use Rattle.std.specs.Prelude.{◌<◌};

use crate::doing::{Change, Doing};
use tl_model::Side;

/// Draws calls, always the same ones from a seed.
#[derive(Drop)]
pub(crate) struct Dice {
    state: u32,
}

impl Dice {
    pub(crate) fn of(seed: u32) -> Dice {
        Dice {
            state: seed.wrapping_mul(2_654_435_761) | 1,
        }
    }

    /// A number below `count`.
    fn below(&mut self, count: u32) -> u32
        requires { 0 < count }
    {
        let mut state = self.state;
        state ^= state << 13;
        state ^= state >> 17;
        state ^= state << 5;
        self.state = state;
        state % count
    }

    /// A number from 1 to `most`.
    fn some(&mut self, most: u32) -> u32
        requires { 0 < most }
    {
        self.below(most).wrapping_add(1)
    }

    /// A side, often of a clip that is there and fits.
    fn side(&mut self) -> Side {
        if self.below(6) == 0 {
            return Side::Black;
        }
        let clip = if self.below(4) == 0 {
            self.below(5)
        } else {
            self.below(2)
        };
        Side::Clip {
            clip,
            frame: self.below(18),
        }
    }

    fn change(&mut self) -> Change {
        let at = self.below(16);
        match self.below(8) {
            0 | 1 | 2 => Change::Insert {
                at,
                take: self.side(),
                len: self.some(4),
            },
            3 => Change::Overwrite {
                at,
                take: self.side(),
                len: self.some(4),
            },
            4 => Change::Lift {
                at,
                len: self.some(3),
            },
            _ => Change::Extract {
                at,
                len: self.some(4),
            },
        }
    }

    /// A call that looks for work or for exports, or a note.
    fn work(&mut self) -> Doing {
        match self.below(10) {
            0 => Doing::Ask,
            1 => Doing::Take,
            2 => Doing::Mark {
                turns: self.below(9),
            },
            3 => Doing::Skip,
            _ => Doing::Claim,
        }
    }

    /// The next call. A claim and a take stand for their ends too.
    pub(crate) fn roll(&mut self) -> Doing {
        match self.below(16) {
            0 | 1 | 2 => Doing::Edit(self.change()),
            3 => Doing::Undo,
            4 => Doing::Redo,
            5 | 6 => Doing::Want {
                first: self.below(14),
                len: self.some(4),
            },
            7 => Doing::Cancel {
                first: self.below(14),
                len: self.some(2),
            },
            8 | 9 | 10 => Doing::Play { n: self.below(14) },
            11 => Doing::Show { n: self.below(14) },
            _ => self.work(),
        }
    }
}
