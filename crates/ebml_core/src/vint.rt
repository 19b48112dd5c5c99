ghost use Rattle.std.specs.Prelude.{◌≡◌, ℕ, ◌+◌, ◌-◌, ◌*◌, ◌^◌, ◌<◌, ◌≤◌, length, take, IfOk, OnErr, MatchResult};
ghost use Rattle.ebml_core.specs.declared.vint.Size.{Size};
ghost use Rattle.ebml_core.specs.Spelling.{IsVint, IsId, IsSize, unsigned_of, size_of};
ghost use Rattle.ebml_core.specs.Reading.{octet_count, vint_at, id_at, size_at};

use crate::number::unsigned;

/// Why the front of some bytes is no id or no size.
#[derive(Clone, Copy, Debug, PartialEq, Eq)]
pub enum VintFault {
    /// There is no first octet, or fewer octets than it shows.
    Short,
    /// The first octet shows more octets than an id (4) or a size (8) may have.
    BadVint,
}

/// The size of an element's content, in octets.
#[derive(Clone, Copy, Debug, PartialEq, Eq)]
pub enum Size {
    Known(u64),
    Unknown,
}

/// How many octets there are where this one is the first (RFC 8794 section 4).
#[tactic(auto, unfolding(crate::specs::Reading::octet_count))]
fn octet_count(first: u8) -> usize
    ensures count { result ≡ octet_count first }
    ensures some { 1 ≤ result }
{
    match first {
        128..=255 => 1,
        64..=127 => 2,
        32..=63 => 3,
        16..=31 => 4,
        8..=15 => 5,
        4..=7 => 6,
        2..=3 => 7,
        1 => 8,
        0 => 9,
    }
}

/// The octets of a variable size integer at the front, at most so many.
#[tactic(auto, unfolding(crate::specs::Reading::vint_at))]
fn vint(bytes: &[u8], most: usize) -> Result<&[u8], VintFault>
    requires { most ≤ 8 }
    ensures exact { MatchResult result (λ octets. vint_at most bytes.now ≡ Ok octets.now)
        (λ fault. vint_at most bytes.now ≡ Err fault) }
    ensures spelled { IfOk result (λ octets. IsVint most octets.now) }
    ensures front { IfOk result (λ octets. (octets.now ≡ take (length octets.now) bytes.now)
        × (1 ≤ length octets.now) × (length octets.now ≤ length bytes.now)) }
{
    let Some(first) = bytes.first() else {
        return Err(VintFault::Short);
    };
    let count = octet_count(*first);
    if most < count {
        return Err(VintFault::BadVint);
    }
    if bytes.len() < count {
        return Err(VintFault::Short);
    }
    Ok(&bytes[..count])
}

/// The size that these octets spell.
#[tactic(auto, unfolding(crate::specs::Spelling::size_of))]
fn size_of(octets: &[u8]) -> Size
    requires some { 1 ≤ length octets.now }
    requires vint { IsVint 8 octets.now }
    ensures { result ≡ size_of octets.now }
{
    let marker = 1u64 << (7 * octets.len() as u32);
    let size = unsigned(octets) - marker;
    if size == marker - 1 {
        Size::Unknown
    } else {
        Size::Known(size)
    }
}

/// The id that the front of the bytes spells, with its marker, and how many bytes it takes
/// (RFC 8794 section 5).
#[tactic(auto, unfolding(crate::specs::Reading::id_at))]
pub fn vint_id(bytes: &[u8]) -> Result<(u32, u8), VintFault>
    // What is read is an id, and stands at the front.
    ensures id { IfOk result (λ x. IsId (take x.1 bytes.now) x.0
        × (1 ≤ x.1) × (x.1 ≤ length bytes.now)) }

    // An error comes only where no front of the bytes is an id.
    ensures none { OnErr result ((len id : ℕ) → IsId (take len bytes.now) id → ⊥) }
    ensures exact { result ≡ id_at bytes.now }
{
    let octets = vint(bytes, 4)?;
    Ok((unsigned(octets) as u32, octets.len() as u8))
}

/// The size that the front of the bytes spells, and how many bytes it takes (RFC 8794 section 6).
#[tactic(auto, unfolding(crate::specs::Reading::size_at))]
pub fn vint_size(bytes: &[u8]) -> Result<(Size, u8), VintFault>
    // What is read is a size, and stands at the front.
    ensures size { IfOk result (λ x. IsSize (take x.1 bytes.now) x.0
        × (1 ≤ x.1) × (x.1 ≤ length bytes.now)) }

    // An error comes only where no front of the bytes is a size.
    ensures none { OnErr result ((len : ℕ) (size : Size) → IsSize (take len bytes.now) size → ⊥) }
    ensures exact { result ≡ size_at bytes.now }
{
    let octets = vint(bytes, 8)?;
    Ok((size_of(octets), octets.len() as u8))
}
