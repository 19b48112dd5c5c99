//! What goes along a row. RFC 9043 section 3.1.
ghost use Rattle.std.specs.Prelude.{◌≡◌, ◌+◌, ◌<◌, ℕ, List, length, slice_index};
ghost use Rattle.ffv1_predict.specs.Border.{Rows, rows, left_at, near};

use crate::near::Near;

/// The neighbours of a sample that the row itself gives, and the one above them: `ll` is the standard's L.
#[derive(Clone, Copy, Debug)]
pub struct Left {
    pub ll: u8,
    pub l: u8,
    pub tl: u8,
}

impl Left {
    /// The start of a row below two others, of which none is empty. Whatever the row is, these stand left of its first sample.
    #[inline]
    pub fn start(above2: &[u8], above: &[u8]) -> Left
        requires some2 { 0 < length above2.now }
        requires some { 0 < length above.now }
        ensures { (row : List ℕ) → result ≡ left_at (rows above2.now above.now row) 0 }
    {
        Left {
            ll: 0,
            l: above[0],
            tl: above2[0],
        }
    }

    /// The neighbours of the sample at a column, from those that go along and the two rows above.
    #[inline]
    pub fn near(self, above2: &[u8], above: &[u8], x: usize) -> Near
        requires column2 { x < length above2.now }
        requires column { x < length above.now }
        ensures { (row : List ℕ) → self ≡ left_at (rows above2.now above.now row) x → result ≡ near (rows above2.now above.now row) x }
    {
        let right = (x + 1).min(above.len() - 1);
        Near {
            tt: above2[x],
            tl: self.tl,
            t: above[x],
            tr: above[right],
            ll: self.ll,
            l: self.l,
        }
    }

    /// What goes along to the next column, once the sample is known.
    #[inline]
    pub fn after(seen: Near, sample: u8) -> Left
        ensures { (r : Rows) (x : ℕ) → seen ≡ near r x → sample ≡ slice_index r.row x → result ≡ left_at r (x + 1) }
    {
        Left {
            ll: seen.l,
            l: sample,
            tl: seen.t,
        }
    }
}
