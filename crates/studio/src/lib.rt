//! The editing core behind a turn: one journal of the calls of many threads. Each caller has a pass, which knows what its
//! caller has seen of the journal. `studio` makes, splits, joins and ends passes; its `edits`, `work` and `exports` have each
//! call, which waits for the turn, and its try, which doesn't (`tries`). `call` says what a call is, `calls` what each does
//! with the board, `shared` is the board behind the turn, `at_pass` a desk over a
//! pass, and `part` what one thread does over it.
#![tactic(auto)]

mod at_pass;
mod call;
mod calls;
mod part;
mod shared;
mod studio;
mod tries;

pub use at_pass::AtPass;
pub use part::{Part, worked};
pub use shared::Shared;
pub use studio::{Pass, Studio};
pub use tries::Try;
