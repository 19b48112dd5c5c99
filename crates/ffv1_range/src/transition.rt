//! State transition tables. RFC 9043 sections 3.8.1.4 to 3.8.1.6.
ghost use Rattle.std.specs.Prelude.{◌≡◌, ◌↔◌, ℕ, ◌<◌, ◌≤◌, ◌∷◌, All, length, slice_index, IfSome, IsSome, IsTrue};
ghost use Rattle.ffv1_range.specs.Transition.{IsTransition, IsZeroStates, IsKept, next_state};

use std::marker::Model;

/// The state after a bit 1 for each state, of the table that a stream has where it codes no deltas.
#[rattlefmt::skip]
pub const DEFAULT_TRANSITION: [u8; 256] = [
    0, 0, 0, 0, 0, 0, 0, 0, 20, 21, 22, 23, 24, 25, 26, 27,
    28, 29, 30, 31, 32, 33, 34, 35, 36, 37, 37, 38, 39, 40, 41, 42,
    43, 44, 45, 46, 47, 48, 49, 50, 51, 52, 53, 54, 55, 56, 56, 57,
    58, 59, 60, 61, 62, 63, 64, 65, 66, 67, 68, 69, 70, 71, 72, 73,
    74, 75, 75, 76, 77, 78, 79, 80, 81, 82, 83, 84, 85, 86, 87, 88,
    89, 90, 91, 92, 93, 94, 94, 95, 96, 97, 98, 99, 100, 101, 102, 103,
    104, 105, 106, 107, 108, 109, 110, 111, 112, 113, 114, 114, 115, 116, 117, 118,
    119, 120, 121, 122, 123, 124, 125, 126, 127, 128, 129, 130, 131, 132, 133, 133,
    134, 135, 136, 137, 138, 139, 140, 141, 142, 143, 144, 145, 146, 147, 148, 149,
    150, 151, 152, 152, 153, 154, 155, 156, 157, 158, 159, 160, 161, 162, 163, 164,
    165, 166, 167, 168, 169, 170, 171, 171, 172, 173, 174, 175, 176, 177, 178, 179,
    180, 181, 182, 183, 184, 185, 186, 187, 188, 189, 190, 190, 191, 192, 194, 194,
    195, 196, 197, 198, 199, 200, 201, 202, 202, 204, 205, 206, 207, 208, 209, 209,
    210, 211, 212, 213, 215, 215, 216, 217, 218, 219, 220, 220, 222, 223, 224, 225,
    226, 227, 227, 229, 229, 230, 231, 232, 234, 234, 235, 236, 237, 238, 239, 240,
    241, 242, 243, 244, 245, 246, 247, 248, 248, 0, 0, 0, 0, 0, 0, 0,
];

/// A state transition table: for each state the one after a bit 1, and the one after a bit 0.
#[derive(Debug, Drop)]
pub struct Transition {
    one: [u8; 256],
    zero: [u8; 256],
}

// Clauses see the table of the states after a bit 1.
impl Model for Transition {
    ghost use Rattle.std.specs.Prelude.{ℕ, List};
    ghost use Rattle.ffv1_range.specs.Transition.{IsTransition, IsZeroStates};

    ghost Value = { List ℕ };

    ghost view = { λ a. a.one };

    ghost invariant = { λ a. IsTransition a.one × IsZeroStates a.one a.zero };
}

impl Transition {
    /// The table of a stream that codes no deltas. It keeps the states 8 to 248.
    pub fn default_table() -> Transition
        ensures table { result ≡ DEFAULT_TRANSITION }
        ensures sound { IsTransition result }
        ensures kept { (state : ℕ) → IsKept result state ↔ ((8 ≤ state) × (state ≤ 248)) }
    {
        with_entries(DEFAULT_TRANSITION)
    }
}

impl Transition {
    /// A table by its entries 1 to 255. None exactly where there aren't 255 of them or one is 0. It keeps the states 1 to 255.
    pub fn of(one: &[u8]) -> Option<Transition>
        ensures some { IsSome result ↔ ((length one.now ≡ 255) × All (λ state. 0 < state) one.now) }
        ensures table { IfSome result (λ table. table ≡ 0 ∷ one.now) }
        ensures sound { IfSome result IsTransition }
        ensures kept { IfSome result (λ table. (state : ℕ) → IsKept table state ↔ ((1 ≤ state) × (state ≤ 255))) }
    {
        if one.len() != 255 || one.contains(&0) {
            return None;
        }
        let mut entries = [0; 256];
        entries[1..].copy_from_slice(one);
        Some(with_entries(entries))
    }

    /// The state after a bit 1 for each state, from state 0 on.
    pub fn one_states(&self) -> &[u8]
        ensures table { result.now ≡ self.now }
        ensures sound { IsTransition self.now }
    {
        &self.one
    }

    /// Whether the table keeps a state, that is, has both states that can follow it.
    pub fn keeps(&self, state: u8) -> bool
        ensures kept { IsTrue result ↔ IsKept self.now state }
        ensures sound { IsTransition self.now }
    {
        state > 0 && self.one[state as usize] > 0 && self.one[256 - state as usize] > 0
    }

    /// The state after a bit.
    #[inline(always)]
    pub(crate) fn next(&self, state: u8, bit: bool) -> u8
        requires { IsKept self.now state }
        ensures next { result ≡ next_state self.now state bit }
        ensures kept { IsKept self.now result }
        ensures positive { 0 < state }
    {
        self.states_after(bit)[state as usize]
    }

    /// A state that the table keeps: it is above 0.
    #[inline(always)]
    pub(crate) fn kept(&self, state: u8) -> u8
        requires { IsKept self.now state }
        ensures same { result ≡ state }
        ensures positive { 0 < result }
    {
        let _states = self.states_after(true);
        state
    }

    // The states after a bit, chosen without a branch.
    #[inline(always)]
    fn states_after(&self, bit: bool) -> &[u8; 256]
        ensures next { (state : ℕ) → IsKept self.now state → slice_index result.now state ≡ next_state self.now state bit }
        ensures sound { IsTransition self.now }
    {
        if bit { &self.one } else { &self.zero }
    }
}

// The table with these states after a bit 1.
fn with_entries(one: [u8; 256]) -> Transition
    requires { IsTransition one }
    ensures { result ≡ one }
{
    Transition {
        one,
        zero: zero_states(&one),
    }
}

// For each state the one after a bit 0, where there is one.
fn zero_states(one: &[u8; 256]) -> [u8; 256]
    requires { slice_index one.now 0 ≡ 0 }
    ensures { IsZeroStates one.now result }
{
    let mut zero = [0; 256];
    for state in 1..256 {
        let mirrored = one[256 - state];
        if mirrored > 0 {
            zero[state] = (256 - mirrored as u16) as u8;
        }
    }
    zero
}
