//! What decoding needs besides a slice.
ghost use Rattle.std.specs.Prelude.{◌≡◌, IfOk};
ghost use Rattle.ffv1_slice.specs.Room.{room};

use ffv1_range::States;
use std::alloc::{AllocError, Global};
use std::marker::Model;

/// Room for the states of contexts and for three lines of samples. Each slice uses it anew.
#[derive(Drop)]
pub struct Scratch {
    pub(crate) contexts: Vec<States>,
    pub(crate) above2: Vec<u8>,
    pub(crate) above: Vec<u8>,
    pub(crate) row: Vec<u8>,
}

// Clauses see for how many contexts there is room, and for how wide a line.
impl Model for Scratch {
    ghost use Rattle.std.specs.Prelude.{◌≡◌, vec_len};
    ghost use Rattle.ffv1_slice.specs.Room.{Room, room};

    ghost Value = { Room };

    ghost view = { λ a. room (vec_len a.contexts) (vec_len a.row) };

    ghost invariant = { λ a. (vec_len a.above2 ≡ vec_len a.row) × (vec_len a.above ≡ vec_len a.row) };
}

impl Scratch {
    /// Room for so many contexts, and for lines of a width.
    pub fn start(alloc: Global, contexts: usize, width: usize) -> Result<Scratch, AllocError>
        ensures { IfOk result (λ scratch. scratch ≡ room contexts width) }
    {
        let contexts = vec![in alloc; States::fresh(); contexts]?;
        let above2 = vec![in alloc; 0; width]?;
        let above = vec![in alloc; 0; width]?;
        let row = vec![in alloc; 0; width]?;
        Ok(Scratch {
            contexts,
            above2,
            above,
            row,
        })
    }
}
