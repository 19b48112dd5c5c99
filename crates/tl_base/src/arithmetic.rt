//! Formulas of the predictor. RFC 9043 sections 3.3 and 3.8.
ghost use Rattle.std.specs.Prelude.{◌≡◌, ℤ, pos, negsuc, ◌≤ℤ◌};
ghost use Rattle.tl_base.specs.Arithmetic.{median, folded, IsMiddle};

/// The middle one of three numbers.
pub fn median3(a: i32, b: i32, c: i32) -> i32
    ensures { result ≡ median a b c }
{
    a.min(b).max(a.max(b).min(c))
}

/// The median lies between each two of the three numbers.
pub fn median_is_middle()
    ensures { (a b c : ℤ) → IsMiddle a b c (median a b c) }
{}

/// A difference folded to eight bits: the number from -128 to 127 that differs from it by a multiple of 256.
pub fn fold8(d: i32) -> i32
    ensures folded { result ≡ folded d }
    ensures least { negsuc 127 ≤ℤ result }
    ensures most { result ≤ℤ pos 127 }
{
    let low = (d.cast_unsigned() & 0xff) as u8;
    i32::from(low.cast_signed())
}
