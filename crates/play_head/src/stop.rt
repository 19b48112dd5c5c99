//! What stops a script.

ghost use Rattle.std.specs.Prelude.{◌≡◌};
ghost use Rattle.play_head.specs.PlayingScript.{stop_of};

use crate::halt::Halt;

/// Why a script stopped before its end.
#[derive(Clone, Copy, Debug, PartialEq, Eq)]
pub enum Stop {
    /// An edit list wasn't fetched.
    Store,
    /// A picture couldn't be put to the screen.
    Screen,
    /// A line couldn't be put out.
    Out,
    /// Memory ran out in a call.
    NoMemory,
    /// Memory ran out for a line.
    OutMemory,
    /// The journal has `len` entries and owes `owed` more, and the next call doesn't fit.
    JournalFull { len: u64, owed: u64 },
}

/// What stops the script where a line of it stopped.
pub(crate) fn stop_of(why: Halt) -> Stop
    ensures { result ≡ stop_of why }
{
    match why {
        Halt::Store { fault: _ } => Stop::Store,
        Halt::Screen => Stop::Screen,
        Halt::Out => Stop::Out,
        Halt::NoMemory => Stop::NoMemory,
        Halt::OutMemory => Stop::OutMemory,
        Halt::JournalFull { len, owed } => Stop::JournalFull { len, owed },
    }
}
