//! Exports: copies of the timeline that a caller takes and ends.

ghost use Rattle.std.specs.Prelude.{◌≡◌, ◌<◌, ◌+◌, ◌++◌, ◌∷◌, [], length, slice_get, Some, true, OnOk, OnErr, IfOk};
ghost use Rattle.std.specs.List.{position};
ghost use Rattle.tl_model.specs.Cells.{cells};
ghost use Rattle.tl_model.specs.Segment.{ArePieces};
ghost use Rattle.render_core.specs.Export.{ExportOf, is_untaken, with_taker, with_ending};
ghost use Rattle.render_core.specs.declared.export.Stage.TheVariants as stage;
ghost use Rattle.render_core.specs.State.{update};
ghost use Rattle.render_core.specs.Waiting.{Took};

use std::alloc::{AllocError, Global};
use std::marker::Model;
use std::snapshot::Snapshot;
use tl_model::{Ending, Name, Segments};

/// How far an export has come.
#[derive(Clone, Copy, Debug, PartialEq, Eq)]
pub enum Stage {
    /// Nobody took it.
    Untaken,
    /// A pass took it.
    Taken { by: u32 },
    /// It was ended.
    Ended(Ending),
}

/// An export that its caller took: its number, its name and its timeline. It must be spent, by `end_export`.
#[derive(Debug)]
pub struct ExportJob {
    pub(crate) export: u64,
    pub(crate) name: Name,
    pub(crate) segments: Segments,
}

impl Model for ExportJob {
    ghost use Rattle.tl_model.specs.Segment.{ArePieces};
    ghost use Rattle.render_core.specs.Export.{ExportJobOf};

    ghost Value = { ExportJobOf };

    ghost view = { λ j. record { export = j.export; name = j.name; segments = j.segments } };

    ghost invariant = { λ j. ArePieces j.segments };
}

impl ExportJob {
    /// The export's number, from 1.
    pub fn export(&self) -> u64
        ensures { result ≡ self.now.export }
    {
        self.export
    }

    /// The name that it was asked under.
    pub fn name(&self) -> &Name
        ensures { result.now ≡ self.now.name }
    {
        &self.name
    }

    /// The timeline as it was at the ask. Each segment is well formed, and its frames have 32-bit numbers.
    pub fn state(&self) -> &Segments
        ensures segments { result.now ≡ self.now.segments }
        ensures pieces { ArePieces result.now }
    {
        &self.segments
    }
}

/// A name and a timeline that wait to be taken.
#[derive(Drop)]
pub(crate) struct Waiting {
    pub(crate) name: Name,
    pub(crate) segments: Segments,
}

/// An export. What it was asked with is there until it is taken.
#[derive(Drop)]
pub(crate) struct Export {
    asked: Snapshot<Waiting>,
    waiting: Option<Waiting>,
    stage: Stage,
}

impl Model for Export {
    ghost use Rattle.tl_model.specs.Cells.{cells};
    ghost use Rattle.render_core.specs.Export.{ExportOf};
    ghost use Rattle.render_core.specs.Waiting.{Waits};

    ghost Value = { ExportOf };

    ghost view = { λ e. record { name = e.asked.value.name; line = cells e.asked.value.segments; stage = e.stage } };

    ghost invariant = { λ e. Waits e.asked.value e.waiting e.stage };
}

impl Export {
    fn new(name: Name, segments: Segments) -> Export
        requires { ArePieces segments }
        ensures { result ≡ record { name = name; line = cells segments; stage = stage.Untaken } }
    {
        let waiting = Waiting { name, segments };
        Export {
            asked: Snapshot::of(&waiting),
            waiting: Some(waiting),
            stage: Stage::Untaken,
        }
    }

    fn is_untaken(&self) -> bool
        ensures { result ≡ is_untaken self.now }
    {
        matches!(self.stage, Stage::Untaken)
    }

    fn take(&mut self, by: u32) -> Waiting
        requires { is_untaken self.old ≡ true }
        ensures taken { self.new ≡ with_taker by self.old }
        ensures name { result.name ≡ self.old.name }
        ensures line { cells result.segments ≡ self.old.line }
        ensures pieces { ArePieces result.segments }
    {
        self.stage = Stage::Taken { by };
        self.waiting.take().unwrap()
    }

    fn end(&mut self, ending: Ending)
        ensures { self.new ≡ with_ending ending self.old }
    {
        self.stage = Stage::Ended(ending);
    }
}

/// Exports, counted from 1.
#[derive(Drop)]
pub(crate) struct Exports {
    items: Vec<Export>,
}

impl Model for Exports {
    ghost use Rattle.std.specs.Prelude.{List};
    ghost use Rattle.render_core.specs.Export.{ExportOf};

    ghost Value = { List ExportOf };

    ghost view = { λ x. x.items.items };
}

impl Exports {
    pub(crate) fn new(alloc: Global) -> Exports
        ensures { result ≡ [] }
    {
        Exports {
            items: Vec::new(alloc),
        }
    }

    /// The next export. Its number is answered.
    pub(crate) fn ask(&mut self, name: Name, segments: Segments) -> Result<u64, AllocError>
        requires { ArePieces segments }
        ensures ok { OnOk result (self.new ≡ self.old ++ record { name = name; line = cells segments; stage = stage.Untaken } ∷ []) }
        ensures number { IfOk result (λ export. export ≡ length self.old + 1) }
        ensures err { OnErr result (self.new ≡ self.old) }
    {
        self.items.push(Export::new(name, segments))?;
        Ok(self.items.len() as u64)
    }

    /// The place of the lowest export that nobody took.
    pub(crate) fn lowest_untaken(&self) -> Option<usize>
        ensures { result ≡ position is_untaken self.now }
    {
        self.items.iter().position(|export| export.is_untaken())
    }

    /// A pass takes the export at a place.
    pub(crate) fn take(&mut self, place: usize, by: u32) -> ExportJob
        requires { position is_untaken self.old ≡ Some place }
        ensures exports { self.new ≡ update place (with_taker by) self.old }
        ensures number { result.export ≡ place + 1 }
        ensures parts { Took result.name (cells result.segments) (slice_get self.old place) }
    {
        let export = &mut self.items[place];
        let Waiting { name, segments } = export.take(by);
        ExportJob {
            export: place as u64 + 1,
            name,
            segments,
        }
    }

    /// Ends the export at a place.
    pub(crate) fn end(&mut self, place: usize, ending: Ending)
        requires { place < length self.old }
        ensures { self.new ≡ update place (with_ending ending) self.old }
    {
        let export = &mut self.items[place];
        export.end(ending);
    }
}
