//! The editing core: a timeline under edits, wanted frames as jobs, filed results, plays, exports, and one journal of the calls.
#![tactic(auto)]

mod board;
mod claim;
mod export;
mod frames;
mod job;
mod jobs;
mod machine;
mod reply;
mod results;

pub use board::Board;
pub use claim::{Claim, Stopper};
pub use export::{ExportJob, Stage};
pub use job::Job;
pub use reply::{
    AskReply, CancelReply, ClaimReply, FileReply, Full, PlayReply, ReleaseReply, ShowReply,
    TakeReply, WantReply,
};
