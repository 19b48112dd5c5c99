//! A list of entries with a limit.

ghost use Rattle.std.specs.Prelude.{◌≡◌, ◌+◌, ◌^◌, ◌<◌, ◌≤◌, [], ◌++◌, length, vec_len};
ghost use Rattle.std.proofs.Common.{arith, length-append};
ghost use Rattle.turn_lock.specs.Entries.{Adds};

use crate::journaled::Journaled;
use std::alloc::{AllocError, Global};
use tl_model::{Act, Entry};

/// A list of at most `limit` entries.
#[derive(Drop)]
pub(super) struct Log {
    entries: Vec<Entry>,
    limit: u64,
    ghost within: { vec_len entries ≤ limit },
    ghost few: { limit < 2 ^ 62 },
}

impl Journaled for Log {
    ghost use Rattle.std.specs.Prelude.{ℕ, ◌≤◌, length};
    ghost use Rattle.std.proofs.Common.{arith, length-append};

    ghost Fixed = { ℕ };

    ghost entries = { λ log. log.entries.items };

    ghost fixed = { λ log. log.limit };

    ghost meets = { λ limit entries. length entries ≤ limit };

    fn len(&self) -> u64 {
        self.entries.len() as u64
    }

    ghost fronts_meet = { λ limit front rest meets. omega (arith, length-append front rest) };
}

impl Log {
    pub(super) fn new(alloc: Global, limit: u64) -> Log
        requires { limit < 2 ^ 62 }
        ensures { result.entries.items ≡ [] }
    {
        Log {
            entries: Vec::new(alloc),
            limit,
        }
    }

    /// Adds a stop of this caller, where there is room.
    pub(super) fn stop(&mut self, by: u32) -> Result<(), AllocError>
        ensures limit { self.new.limit ≡ self.old.limit }
        ensures added { Adds by self.old.entries.items self.new.entries.items }
    {
        if self.len() == self.limit {
            return Ok(());
        }
        self.entries.push(Entry {
            pass: by,
            act: Act::Stop,
        })?;
        Ok(())
    }

    pub(super) fn entries(&self) -> &[Entry]
        ensures { result.now ≡ self.now.entries.items }
    {
        self.entries.as_slice()
    }
}
