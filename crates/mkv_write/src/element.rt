//! Elements as bytes (RFC 8794).

ghost use Rattle.std.specs.Prelude.{◌≡◌, ◌++◌, ◌<◌, ◌≤◌, ◌^◌, length, OnOk, OnErr};
ghost use Rattle.std.specs.Int.{bytes_high_first};
ghost use Rattle.mkv_write.specs.File.{size, element, number};

use std::alloc::AllocError;

/// The number that an unknown size has in 8 octets: all of its bits are one (RFC 8794 section 6.2).
pub(crate) const UNKNOWN_SIZE: u64 = 0x00FF_FFFF_FFFF_FFFF;

/// Appends the lowest octets of a number, the highest of them first.
fn put_octets(out: &mut Vec<u8>, octets: usize, value: u64) -> Result<(), AllocError>
    requires { octets ≤ 8 }
    ensures ok { OnOk result (out.new.items ≡ out.old.items ++ bytes_high_first octets value) }
    ensures err { OnErr result (out.new.items ≡ out.old.items) }
{
    let bytes = value.to_be_bytes();
    out.extend_from_slice(&bytes[8 - octets..])?;
    Ok(())
}

/// Appends an id, with its marker (RFC 8794 section 5).
pub(crate) fn put_id(out: &mut Vec<u8>, octets: usize, id: u32) -> Result<(), AllocError>
    requires { octets ≤ 4 }
    ensures ok { OnOk result (out.new.items ≡ out.old.items ++ bytes_high_first octets id) }
    ensures err { OnErr result (out.new.items ≡ out.old.items) }
{
    put_octets(out, octets, u64::from(id))?;
    Ok(())
}

/// Appends a size (RFC 8794 section 6).
#[tactic(auto, unfolding(crate::specs::File::size))]
pub(crate) fn put_size(out: &mut Vec<u8>, octets: usize, number: u64) -> Result<(), AllocError>
    requires octets { octets ≤ 8 }
    requires fits { number < 2 ^ 63 }
    ensures ok { OnOk result (out.new.items ≡ out.old.items ++ size octets number) }
    ensures err { OnErr result (out.new.items ≡ out.old.items) }
{
    put_octets(out, octets, (1 << (7 * octets)) + number)?;
    Ok(())
}

/// Appends an element with its content.
#[tactic(auto, unfolding(crate::specs::File::element))]
pub(crate) fn put_element(
    out: &mut Vec<u8>,
    id_octets: usize,
    id: u32,
    size_octets: usize,
    content: &[u8],
) -> Result<(), AllocError>
    requires id { id_octets ≤ 4 }
    requires size { size_octets ≤ 8 }
    requires fits { length content.now < 2 ^ 63 }
    ensures { OnOk result (out.new.items ≡ out.old.items ++ element id_octets id size_octets content.now) }
{
    put_id(out, id_octets, id)?;
    put_size(out, size_octets, content.len() as u64)?;
    out.extend_from_slice(content)?;
    Ok(())
}

/// Appends an unsigned integer of so many octets (RFC 8794 section 7.2).
#[tactic(auto, unfolding(crate::specs::File::number))]
pub(crate) fn put_number(
    out: &mut Vec<u8>,
    id_octets: usize,
    id: u32,
    octets: usize,
    value: u64,
) -> Result<(), AllocError>
    requires id { id_octets ≤ 4 }
    requires octets { octets ≤ 8 }
    ensures { OnOk result (out.new.items ≡ out.old.items ++ number id_octets id octets value) }
{
    let bytes = value.to_be_bytes();
    put_element(out, id_octets, id, 1, &bytes[8 - octets..])?;
    Ok(())
}
