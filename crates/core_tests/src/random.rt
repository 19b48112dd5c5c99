//! Random calls beside a model.

use crate::random_calls::{ONE, SIX, TIGHT, TWO};
use crate::session::play_pieces;
use std::test::Fail;

/// 2,000 calls in four sessions.
#[test]
fn random_calls_are_told_what_a_model_says(rt: HostRuntime) -> Result<(), Fail> {
    play_pieces(&rt, rt.alloc(), 1, 100_000, &ONE)?;
    play_pieces(&rt, rt.alloc(), 2, 100_000, &TWO)?;
    play_pieces(&rt, rt.alloc(), 6, 100_000, &SIX)?;
    play_pieces(&rt, rt.alloc(), 4, 330, &TIGHT)?;
    Ok(())
}
