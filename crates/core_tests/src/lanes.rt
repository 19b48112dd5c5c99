//! A timeline's own look-ups.

use std::test::Fail;
use test_media::Numbers;
use time_list::{Lane, ListLane, recipe_in};
use tl_model::{Edit, Mix, Recipe, Segment, Segments, Side};

/// Ten frames of the first clip, ten of the second, which dissolve in over four, and six of black.
#[rattlefmt::skip]
const LINE: [Segment; 3] = [
    Segment { first: Side::Clip { clip: 0, frame: 0 }, len: 10, mix: None },
    Segment { first: Side::Clip { clip: 1, frame: 5 }, len: 10,
        mix: Some(Mix { from: Side::Clip { clip: 0, frame: 10 }, done: 0, steps: 4, total: 4 }) },
    Segment { first: Side::Black, len: 6, mix: None },
];

/// The steps of its dissolve, and what is beside them.
#[rattlefmt::skip]
const RECIPES: [(u32, Recipe); 7] = [
    (9, Recipe::Source { clip: 0, frame: 9 }),
    (10, Recipe::Mix { from: Side::Clip { clip: 0, frame: 10 }, to: Side::Clip { clip: 1, frame: 5 }, weight: 51 }),
    (11, Recipe::Mix { from: Side::Clip { clip: 0, frame: 11 }, to: Side::Clip { clip: 1, frame: 6 }, weight: 102 }),
    (12, Recipe::Mix { from: Side::Clip { clip: 0, frame: 12 }, to: Side::Clip { clip: 1, frame: 7 }, weight: 153 }),
    (13, Recipe::Mix { from: Side::Clip { clip: 0, frame: 13 }, to: Side::Clip { clip: 1, frame: 8 }, weight: 204 }),
    (14, Recipe::Source { clip: 1, frame: 9 }),
    (25, Recipe::Black),
];

#[test]
fn frames_have_recipes(rt: HostRuntime) -> Result<(), Fail> {
    let mut lane = ListLane::blank(rt.alloc());
    let edit = Edit::Replace {
        segments: Segments::from_vec(Vec::from_slice(rt.alloc(), &LINE)?),
    };
    assert!(rt; edit.is_well_formed());
    assert!(rt; lane.apply(rt.alloc(), &Numbers, &edit).is_ok());
    assert_eq!(rt; lane.segments(), 3);
    assert_eq!(rt; lane.snapshot(rt.alloc())?.as_slice(), LINE.as_slice());
    for (n, recipe) in RECIPES {
        assert!(rt; n < lane.frames());
        assert_eq!(rt; recipe_in(&lane, n), recipe, "at frame {n}");
        assert!(rt; lane.uses(recipe), "at frame {n}");
    }
    assert!(rt; !lane.uses(Recipe::Source { clip: 0, frame: 10 }));
    Ok(())
}
