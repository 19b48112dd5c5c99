//! What a worker and the exporter of a session do, each over the desk of its pass.

ghost use Rattle.std.specs.Prelude.{◌≡◌, None};
ghost use Rattle.tl_limits.specs.Limits.{IsRate};
ghost use Rattle.play_head.specs.Carrying.{carrier, exporter};
ghost use Rattle.render_pool.specs.Exporting.{ExportsAll};
ghost use Rattle.render_pool.specs.Working.{WorksUntilStopped};
ghost use Rattle.crew.specs.Parts.{desk_in};

use render_pool::{WorkEnd, export_until_stopped, work_until_stopped};
use std::alloc::Global;
use std::sync::Wait;
use studio::{AtPass, Part};
use time_list::Lane;
use tl_model::Media;
use tl_ports::{Gate, Vault};

/// A worker: turns of work, until one after which it doesn't go on. It answers how the last one ended.
#[derive(Drop)]
pub struct WorkerPart<'a, R: Wait, G: Gate> {
    pub rt: &'a R,
    pub alloc: Global,
    pub gate: &'a G,
}

impl<'a, R: Wait, M: Media + Drop, L: Lane, G: Gate> Part<R, M, L> for WorkerPart<'a, R, G> {
    type Answer = WorkEnd;

    ghost asks = { λ part at. Unit {0} };

    ghost told = { λ part old new last. WorksUntilStopped M.library (desk_in old) (desk_in new) last };

    fn work(self, desk: &mut AtPass<'_, M, L, R>) -> WorkEnd {
        let WorkerPart { rt, alloc, gate } = self;
        work_until_stopped(rt, desk, alloc, gate)
    }
}

/// The exporter: exports are carried out at this rate in frames a second, until the session was stopped and none is left that nobody
/// took. It answers the vault that it was lent.
#[derive(Drop)]
pub struct ExporterPart<'a, R: Wait, V: Vault, G: Gate> {
    pub rt: &'a R,
    pub alloc: Global,
    pub vault: &'a mut V,
    pub rate: u32,
    pub gate: &'a G,
}

impl<'a, R: Wait, M: Media + Drop, L: Lane, V: Vault, G: Gate> Part<R, M, L>
    for ExporterPart<'a, R, V, G> {
    type Answer = &'a mut V;

    ghost asks = { λ part at. ((V.seen part.vault.now).begun ≡ None) × IsRate part.rate };

    ghost told = { λ part old new vault. (vault.ghost_name ≡ part.vault.ghost_name)
        × ExportsAll M.library (carrier M.library (desk_in old) part.rate V.tells)
        (exporter (desk_in old) (V.seen part.vault.now)) (exporter (desk_in new) (V.seen vault.now))
        × ((V.seen vault.now).begun ≡ None) };

    fn work(self, desk: &mut AtPass<'_, M, L, R>) -> &'a mut V {
        let ExporterPart {
            rt,
            alloc,
            vault,
            rate,
            gate,
        } = self;
        export_until_stopped(rt, alloc, desk, vault, rate, gate);
        vault
    }
}
