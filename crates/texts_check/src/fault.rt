//! The line of a fault.

ghost use Rattle.std.specs.Prelude.{◌≡◌, ◌++◌, OnOk};
ghost use Rattle.texts_check.specs.Answer.{fault_text};

use std::alloc::AllocError;
use text_words::put_number;

/// Puts the line of a fault.
#[tactic(auto, using(std::proofs::Common::append_assoc), unfolding(crate::specs::Answer::fault_text))]
pub fn put_fault(out: &mut Vec<u8>, n: u32, why: &str) -> Result<(), AllocError>
    ensures { OnOk result (out.new.items ≡ out.old.items ++ fault_text n why.now) }
{
    out.extend_from_slice(b"line ")?;
    put_number(out, 1, n)?;
    out.push(b' ')?;
    out.extend_from_slice(why.as_bytes())?;
    out.push(b'\n')?;
    Ok(())
}
