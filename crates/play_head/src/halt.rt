//! What stops a line of a script.

ghost use Rattle.std.specs.Prelude.{◌≡◌};
ghost use Rattle.play_head.specs.Halting.{halt_for};

use render_core::Full;
use tl_ports::FetchFault;

/// Why a line stopped before its end.
#[derive(Clone, Copy, Debug, PartialEq, Eq)]
pub enum Halt {
    /// The line's edit list wasn't fetched, for another cause than want of memory.
    Store { fault: FetchFault },
    /// A picture couldn't be put to the screen.
    Screen,
    /// A line couldn't be put out.
    Out,
    /// Memory ran out in a call, a fetch, an edit list or a picture.
    NoMemory,
    /// Memory ran out for a line.
    OutMemory,
    /// The journal has `len` entries and owes `owed` more, and the next call doesn't fit.
    JournalFull { len: u64, owed: u64 },
}

/// What stops the line where a call was refused.
pub(crate) fn halt_for(why: Full) -> Halt
    ensures { result ≡ halt_for why }
{
    match why {
        Full::JournalFull { len, owed } => Halt::JournalFull { len, owed },
        Full::NoMemory => Halt::NoMemory,
    }
}
