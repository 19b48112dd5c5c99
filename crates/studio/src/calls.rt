//! The calls of a board, each as a value: what it asks, what it spends, and what its caller is told.

mod edits;
mod exports;
mod work;

pub(crate) use edits::{CancelCall, EditCall, MarkCall, RedoCall, SkipCall, UndoCall, WantCall};
pub(crate) use exports::{AskCall, EndCall, TakeCall};
pub(crate) use work::{ClaimCall, FileCall, PlayCall, ReleaseCall, ShowCall, StopCall};
