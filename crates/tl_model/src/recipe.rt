//! What a frame of a timeline is made of.

ghost use Rattle.std.specs.Prelude.{◌≡◌, ◌+◌};
ghost use Rattle.tl_model.specs.Cells.{side_at};
ghost use Rattle.tl_model.specs.Media as media;
ghost use Rattle.tl_model.specs.Recipe.{same_side, same_recipe};
ghost use Rattle.tl_model.specs.Segment.{Reaches};

/// What one side of a frame shows.
#[derive(Clone, Copy, Debug, PartialEq, Eq)]
pub enum Side {
    Black,
    /// A frame of a clip; both are counted from 0.
    Clip { clip: u32, frame: u32 },
}

impl Side {
    /// Whether both are the same, as a comparison that clauses can name.
    pub fn is(self, other: Side) -> bool
        ensures { result ≡ same_side self other }
    {
        self == other
    }

    /// What follows this side after `by` frames.
    pub fn moved(self, by: u32) -> Side
        requires { Reaches self (by + 1) }
        ensures { result ≡ side_at self by }
    {
        match self {
            Side::Black => Side::Black,
            Side::Clip { clip, frame } => Side::Clip {
                clip,
                frame: frame + by,
            },
        }
    }

    /// The recipe of a frame that shows this side as it is.
    pub fn alone(self) -> Recipe
        ensures { result ≡ media.alone self }
    {
        match self {
            Side::Black => Recipe::Black,
            Side::Clip { clip, frame } => Recipe::Source { clip, frame },
        }
    }
}

/// How a frame is rendered.
#[derive(Clone, Copy, Debug, PartialEq, Eq)]
pub enum Recipe {
    Black,
    /// A frame of a clip as it is.
    Source { clip: u32, frame: u32 },
    /// A dissolve: `weight` parts of 256 of `to`, and the rest of `from`.
    Mix { from: Side, to: Side, weight: u8 },
}

impl Recipe {
    /// Whether both are the same, as a comparison that clauses can name.
    pub fn is(self, other: Recipe) -> bool
        ensures { result ≡ same_recipe self other }
    {
        self == other
    }
}

/// A dissolve at the start of a segment: its first `steps` frames are steps `done + 1` to `done + steps` of `total`.
#[derive(Clone, Copy, Debug, PartialEq, Eq)]
pub struct Mix {
    /// The outgoing side of the first frame.
    pub from: Side,
    pub done: u32,
    pub steps: u32,
    pub total: u32,
}
