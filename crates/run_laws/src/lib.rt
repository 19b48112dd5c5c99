//! Laws of a run of the editor, about its definitions alone. Each function tells one in a proof, and does nothing.
#![tactic(auto)]

ghost use Rattle.run_laws.specs.Law.{EndsWell, NeverFull, NeverRefused, SessionEndsWell, SessionNeverFull};

/// No call of a script that has room in its journal is refused since the journal is full.
pub fn never_refused()
    ensures { NeverRefused }
{}

/// A session that was opened, of any store, doesn't end since the journal is full where its script has room there.
pub fn session_never_full()
    ensures { SessionNeverFull }
{}

/// A session that was opened, of any store, succeeds, but for want of memory, where no count rises, its journal has room and each frame
/// that is exported has a packet.
pub fn session_ends_well()
    ensures { SessionEndsWell }
{}

/// A run whose script has room in its journal doesn't end since the journal is full.
pub fn never_full()
    ensures { NeverFull }
{}

/// A run over a sound outside succeeds, but for want of memory.
pub fn ends_well()
    ensures { EndsWell }
{}
