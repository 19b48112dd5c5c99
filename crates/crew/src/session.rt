//! The parts of a session, each in a thread.

ghost use Rattle.studio.specs.Known.{Knows};
ghost use Rattle.studio.specs.Parts.{KnowsAs, desk_of};
ghost use Rattle.crew.specs.Slots.{AreReady, AllRun, Runs};

use crate::seat::{Place, Seat};
use crate::slots::run_crew;
use crate::task::{Slot, answer_of};
use std::sync::Wait;
use std::thread::Threads;
use studio::{Part, Pass, Studio};
use time_list::Lane;
use tl_model::Media;

/// Does the main part in this thread, and beside it the exporter's and those of the workers' seats, each in a thread of its own and
/// with its pass of the studio. Each pass then knows what its part was told, and stays who it was, whatever the others do in between.
/// Where no thread can be made the main part is done first, and the others after it.
pub fn man<
    'a,
    R: Threads + Wait + Sync,
    M: Media + Drop + Sync,
    L: Lane + Send,
    E: Part<R, M, L> + Send + Drop,
    W: Part<R, M, L> + Send + Drop,
    P: Part<R, M, L> + Drop,
>(
    rt: &'a R,
    studio: &'a Studio<M, L>,
    exporter: (Pass<M, L>, E),
    workers: &mut [Place<'a, R, M, L, W>],
    main: (Pass<M, L>, P),
) -> ((Pass<M, L>, E::Answer), (Pass<M, L>, P::Answer))
where
    M::Frame: Send + Sync,
    E::Answer: Send + Drop,
    W::Answer: Send + Drop,
    P::Answer: Drop,
    requires exporter { Knows M.library studio.now exporter.0 × E.asks exporter.1 (desk_of studio.now exporter.0) }
    requires workers { AreReady workers.old (λ seat. Knows M.library seat.studio.now seat.pass
        × W.asks seat.part (desk_of seat.studio.now seat.pass)) }
    requires main { Knows M.library studio.now main.0 × P.asks main.1 (desk_of studio.now main.0) }
    ensures exporter { KnowsAs M.library studio.now exporter.0 result.0.0 }
    ensures exporter_told { E.told exporter.1 (desk_of studio.now exporter.0) (desk_of studio.now result.0.0) result.0.1 }
    ensures workers { AllRun workers.old workers.new (λ seat left. KnowsAs M.library seat.studio.now seat.pass left.0
        × W.told seat.part (desk_of seat.studio.now seat.pass) (desk_of seat.studio.now left.0) left.1) }
    ensures main { KnowsAs M.library studio.now main.0 result.1.0 }
    ensures main_told { P.told main.1 (desk_of studio.now main.0) (desk_of studio.now result.1.0) result.1.1 }
{
    let (pass, part) = exporter;
    let mut first = Slot::Ready(Seat {
        rt,
        studio,
        pass,
        part,
    });
    let (pass, part) = main;
    let mut last = Slot::Ready(Seat {
        rt,
        studio,
        pass,
        part,
    });
    run_crew(rt, &mut first, workers, &mut last);
    (answer_of(first), answer_of(last))
}
