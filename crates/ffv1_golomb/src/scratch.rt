//! What decoding and encoding need besides a slice.
ghost use Rattle.std.specs.Prelude.{◌≡◌, IfOk};
ghost use Rattle.ffv1_slice.specs.Room.{room};

use ffv1_rice::VlcState;
use std::alloc::{AllocError, Global};
use std::marker::Model;

/// Room for the states of contexts, for three lines of samples, and for the contexts and differences of a line. Each slice uses it
/// anew.
#[derive(Drop)]
pub struct RiceScratch {
    pub(crate) states: Vec<VlcState>,
    pub(crate) above2: Vec<u8>,
    pub(crate) above: Vec<u8>,
    pub(crate) row: Vec<u8>,
    pub(crate) line: Gathered,
}

/// The contexts of a line's samples, by magnitude, and their differences.
#[derive(Drop)]
pub(crate) struct Gathered {
    pub(crate) contexts: Vec<u16>,
    pub(crate) differences: Vec<i8>,
}

// Clauses see for how many contexts there is room, and for how wide a line.
impl Model for RiceScratch {
    ghost use Rattle.std.specs.Prelude.{◌≡◌, vec_len};
    ghost use Rattle.ffv1_slice.specs.Room.{Room, room};

    ghost Value = { Room };

    ghost view = { λ a. room (vec_len a.states) (vec_len a.row) };

    ghost invariant = { λ a. (vec_len a.above2 ≡ vec_len a.row) × (vec_len a.above ≡ vec_len a.row)
        × (vec_len a.line.contexts ≡ vec_len a.row) × (vec_len a.line.differences ≡ vec_len a.row) };
}

impl RiceScratch {
    /// Room for so many contexts, and for lines of a width.
    pub fn start(alloc: Global, contexts: usize, width: usize) -> Result<RiceScratch, AllocError>
        ensures { IfOk result (λ scratch. scratch ≡ room contexts width) }
    {
        let states = vec![in alloc; VlcState::fresh(); contexts]?;
        let above2 = vec![in alloc; 0; width]?;
        let above = vec![in alloc; 0; width]?;
        let row = vec![in alloc; 0; width]?;
        let contexts = vec![in alloc; 0; width]?;
        let differences = vec![in alloc; 0; width]?;
        Ok(RiceScratch {
            states,
            above2,
            above,
            row,
            line: Gathered {
                contexts,
                differences,
            },
        })
    }
}
