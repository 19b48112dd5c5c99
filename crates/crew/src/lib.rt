//! Parts of a session that are done in threads of their own, each with a pass of one studio.
//!
//! `task` is work that one thread does, with its place, and `slots` does several at once. `seat` is a part with its pass, and `session`
//! does the parts of a session at once; `joining` joins their passes into main's. The parts are those of `worker`, a worker's and the
//! exporter's, and of `script`, main's.
#![tactic(auto)]

mod joining;
mod script;
mod seat;
mod session;
mod slots;
mod task;
#[cfg(test)]
mod tests;
mod worker;

pub use joining::{join_all, join_in};
pub use script::{ScriptPart, Shown};
pub use seat::{Left, Place, Seat};
pub use session::man;
pub use slots::{run_crew, run_slots};
pub use task::{Slot, Task, answer_of, run_slot};
pub use worker::{ExporterPart, WorkerPart};
