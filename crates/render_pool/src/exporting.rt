//! Exports that are carried out beside a script.

ghost use Rattle.std.specs.Prelude.{◌≡◌, None};
ghost use Rattle.tl_limits.specs.Limits.{IsRate};
ghost use Rattle.tl_model.specs.Cells.{cells};
ghost use Rattle.tl_model.specs.Sound.{IsSound};
ghost use Rattle.render_core.specs.State.{HoldsExport};
ghost use Rattle.edit_desk.specs.Desk.{state_of};
ghost use Rattle.play_head.specs.Carrying.{carrier, exporter};
ghost use Rattle.render_pool.specs.Exporting.{EndsTaken, ExportsTurn, ExportsAll};

use crate::end::ExportEnd;
use edit_desk::Desk;
use play_head::carry;
use render_core::{ExportJob, TakeReply};
use std::alloc::Global;
use std::sync::Wait;
use std::thread;
use tl_model::Ending;
use tl_ports::{Gate, Point, Vault};

/// Carries out an export that the caller took, and ends it.
fn end_taken<D: Desk, V: Vault>(
    alloc: Global,
    desk: &mut D,
    vault: &mut V,
    rate: u32,
    job: ExportJob,
) -> Ending
    requires idle { (V.seen vault.old).begun ≡ None }
    requires held { HoldsExport (state_of D.Lib.library (D.desk desk.old)) (D.desk desk.old).fixed.number job.export job.name
        (cells job.segments) }
    requires sound { IsSound (D.Lib.library (D.desk desk.old).fixed.library) (cells job.segments) }
    requires rate { IsRate rate }
    ensures { EndsTaken D.Lib.library (carrier D.Lib.library (D.desk desk.old) rate V.tells)
        (exporter (D.desk desk.old) (V.seen vault.old)) (exporter (D.desk desk.new) (V.seen vault.new)) (job, result) }
{
    desk.known();
    let ending = carry(alloc, desk.media(), vault, rate, &job);
    desk.end_export(job, ending);
    ending
}

/// Takes the lowest export that nobody took, carries it out at this rate in frames a second, and ends it. The gate is called where it was
/// taken. What its file then holds, and which ending has which cause, [`play_head::carry`] says. `Idle` and `Stopped` leave no entry.
pub fn export_turn<D: Desk, V: Vault, G: Gate>(
    alloc: Global,
    desk: &mut D,
    vault: &mut V,
    rate: u32,
    gate: &G,
) -> ExportEnd
    requires idle { (V.seen vault.old).begun ≡ None }
    requires rate { IsRate rate }
    ensures turn { ExportsTurn D.Lib.library (carrier D.Lib.library (D.desk desk.old) rate V.tells)
        (exporter (D.desk desk.old) (V.seen vault.old)) (exporter (D.desk desk.new) (V.seen vault.new)) result }
    ensures idle { (V.seen vault.new).begun ≡ None }
{
    match desk.take_export() {
        TakeReply::Taken(job) => {
            let export = job.export();
            gate.at(Point::Taken, export);
            let ending = end_taken(alloc, desk, vault, rate, job);
            ExportEnd::Ended { export, ending }
        }
        TakeReply::Idle { len } => ExportEnd::Idle { len },
        TakeReply::Stopped { len } => ExportEnd::Stopped { len },
    }
}

/// Carries out exports until the session was stopped and none is left that nobody took. Where there is nothing to do the gate is called,
/// and the thread lets others run.
pub fn export_until_stopped<D: Desk, V: Vault, G: Gate, R: Wait>(
    rt: &R,
    alloc: Global,
    desk: &mut D,
    vault: &mut V,
    rate: u32,
    gate: &G,
)
    requires idle { (V.seen vault.old).begun ≡ None }
    requires rate { IsRate rate }
    ensures exports { ExportsAll D.Lib.library (carrier D.Lib.library (D.desk desk.old) rate V.tells)
        (exporter (D.desk desk.old) (V.seen vault.old)) (exporter (D.desk desk.new) (V.seen vault.new)) }
    ensures idle { (V.seen vault.new).begun ≡ None }
{
    for _ in rt.forever() {
        match export_turn(alloc, desk, vault, rate, gate) {
            ExportEnd::Ended {
                export: _,
                ending: _,
            } => {}
            ExportEnd::Idle { len } => {
                gate.at(Point::Idle, len);
                thread::yield_now();
            }
            ExportEnd::Stopped { len: _ } => return,
        }
    }
}
