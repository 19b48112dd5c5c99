//! Exports, carried out: each is taken, its file written, and ended.

ghost use Rattle.std.specs.Prelude.{◌≡◌, ◌≤◌, IsTrue, [], Some, None, length};
ghost use Rattle.tl_limits.specs.Limits.{IsRate};
ghost use Rattle.tl_model.specs.Cells.{cells};
ghost use Rattle.tl_model.specs.Sound.{IsSound};
ghost use Rattle.render_core.specs.State.{HoldsExport};
ghost use Rattle.edit_desk.specs.Desk.{state_of};
ghost use Rattle.play_head.specs.Carrying.{ending_of, ending_after, carried_as, carrier, exporter, CarriesOne, CarriesTaken, FinishesAll};

use edit_desk::Desk;
use render_core::{ExportJob, TakeReply};
use smart_export::export;
use std::alloc::Global;
use tl_model::{Ending, Media};
use tl_ports::{PutFault, Vault};

/// How an export ends whose file couldn't be begun or ended.
fn ending_of(fault: PutFault) -> Ending
    ensures { result ≡ ending_of fault }
{
    match fault {
        PutFault::Failed => Ending::Sink,
        PutFault::NoMemory => Ending::NoMemory,
    }
}

/// How an export ends, by how its frames and then its file ended.
fn ending_after(written: Ending, ended: Result<(), PutFault>) -> Ending
    ensures { result ≡ ending_after written ended }
{
    match written {
        Ending::Done { frames } => match ended {
            Ok(()) => Ending::Done { frames },
            Err(fault) => ending_of(fault),
        },
        fault => fault,
    }
}

/// Writes the begun file, which is empty, and ends it.
fn carry_begun<M: Media, V: Vault>(
    alloc: Global,
    media: &M,
    vault: &mut V,
    rate: u32,
    job: &ExportJob,
) -> Ending
    requires begun { (V.seen vault.old).begun ≡ Some job.now.name }
    requires empty { IsTrue V.tells → (V.seen vault.old).held ≡ [] }
    requires sound { IsSound (M.library media.now) (cells job.now.segments) }
    requires some { 1 ≤ length (cells job.now.segments) }
    requires rate { IsRate rate }
    ensures { CarriesOne (record { library = M.library media.now; rate = rate; tells = V.tells }) (V.seen vault.old) (V.seen vault.new)
        (carried_as job.now result) }
{
    let written = export(alloc, job.state(), media, vault, rate);
    let ended = vault.end();
    ending_after(written, ended)
}

/// Carries out an export that was taken, at this rate in frames a second: the vault's file of its name is begun, written and
/// ended, and no other file changes. It is for the caller to end the export with the ending that is answered.
///
/// `Sink` comes where the vault's count of faults rose: at the file's begin, in its frames, or at its end after frames that
/// were all written. `NoMemory` comes where memory ran out at one of these. A fault of the frames stands, however the file
/// was ended.
pub fn carry<M: Media, V: Vault>(
    alloc: Global,
    media: &M,
    vault: &mut V,
    rate: u32,
    job: &ExportJob,
) -> Ending
    requires idle { (V.seen vault.old).begun ≡ None }
    requires sound { IsSound (M.library media.now) (cells job.now.segments) }
    requires some { 1 ≤ length (cells job.now.segments) }
    requires rate { IsRate rate }
    ensures { CarriesOne (record { library = M.library media.now; rate = rate; tells = V.tells }) (V.seen vault.old) (V.seen vault.new)
        (carried_as job.now result) }
{
    match vault.begin(job.name().as_str()) {
        Ok(()) => carry_begun(alloc, media, vault, rate, job),
        Err(fault) => ending_of(fault),
    }
}

/// Carries out an export that the caller took, and ends it.
fn carry_taken<D: Desk, V: Vault>(
    alloc: Global,
    desk: &mut D,
    vault: &mut V,
    rate: u32,
    job: ExportJob,
)
    requires idle { (V.seen vault.old).begun ≡ None }
    requires held { HoldsExport (state_of D.Lib.library (D.desk desk.old)) (D.desk desk.old).fixed.number job.export job.name
        (cells job.segments) }
    requires sound { IsSound (D.Lib.library (D.desk desk.old).fixed.library) (cells job.segments) }
    requires rate { IsRate rate }
    ensures { CarriesTaken D.Lib.library (carrier D.Lib.library (D.desk desk.old) rate V.tells)
        (exporter (D.desk desk.old) (V.seen vault.old)) (exporter (D.desk desk.new) (V.seen vault.new)) job }
{
    desk.known();
    let ending = carry(alloc, desk.media(), vault, rate, &job);
    desk.end_export(job, ending);
}

/// Takes exports, carries each out and ends it, until there is none that nobody took. The rate is in frames a second.
///
/// What each export's file then holds, and which ending has which cause, `carry` says.
pub fn finish_exports<D: Desk, V: Vault>(alloc: Global, desk: &mut D, vault: &mut V, rate: u32)
    requires idle { (V.seen vault.old).begun ≡ None }
    requires rate { IsRate rate }
    ensures carried { FinishesAll D.Lib.library (carrier D.Lib.library (D.desk desk.old) rate V.tells)
        (exporter (D.desk desk.old) (V.seen vault.old)) (exporter (D.desk desk.new) (V.seen vault.new)) }
    ensures idle { (V.seen vault.new).begun ≡ None }
{
    loop {
        match desk.take_export() {
            TakeReply::Taken(job) => carry_taken(alloc, desk, vault, rate, job),
            TakeReply::Idle { len: _ } => return,
            TakeReply::Stopped { len: _ } => return,
        }
        desk.known();
    }
}
