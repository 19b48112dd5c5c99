//! Bytes into the begun file.

ghost use Rattle.std.specs.Prelude.{◌≡◌, ◌++◌, IsSome};
ghost use Rattle.tl_ports.specs.Outside.{KeepsBegun};
ghost use Rattle.mkv_write.specs.Writing.{Appends, WriteHasCause};

use crate::fault::WriteFault;
use tl_ports::Vault;

/// Puts bytes at the end of the begun file. After a fault a prefix of them was put.
pub(crate) fn put<V: Vault>(vault: &mut V, bytes: &[u8]) -> Result<(), WriteFault>
    requires { IsSome (V.seen vault.old).begun }
    ensures put { Appends V.tells (V.seen vault.old).held (V.seen vault.new).held bytes.now result }
    ensures kept { KeepsBegun V.tells (V.seen vault.old) (V.seen vault.new) }
    ensures cause { WriteHasCause (V.seen vault.old).faults (V.seen vault.new).faults result }
{
    vault.append(bytes)?;
    Ok(())
}

/// Puts two pieces, one after the other.
pub(crate) fn put_both<V: Vault>(
    vault: &mut V,
    first: &[u8],
    second: &[u8],
) -> Result<(), WriteFault>
    requires { IsSome (V.seen vault.old).begun }
    ensures put { Appends V.tells (V.seen vault.old).held (V.seen vault.new).held (first.now ++ second.now) result }
    ensures kept { KeepsBegun V.tells (V.seen vault.old) (V.seen vault.new) }
    ensures cause { WriteHasCause (V.seen vault.old).faults (V.seen vault.new).faults result }
{
    put(vault, first)?;
    put(vault, second)?;
    Ok(())
}
