//! Tasks that are done at once, and what another thread may be given.

ghost use Rattle.std.specs.Prelude.{◌≡◌, ◌<◌, ◌*◌};

use crate::{ExporterPart, Slot, Task, WorkerPart, run_crew};
use render_pool::WorkEnd;
use std::process::Abort;
use std::sync::Wait;
use tl_ports::{Gate, Vault};

/// Doubles a number.
#[derive(Drop)]
struct Double {
    value: u32,
}

impl Task for Double {
    type Output = u32;

    ghost can_run = { λ task. task.value < 1000 };

    ghost run_gives = { λ task twice. twice ≡ 2 * task.value };

    fn run(self) -> u32 {
        2 * self.value
    }
}

/// The answer at a slot, 0 where there is none.
fn given(slot: &Slot<Double, u32>) -> u32 {
    match slot {
        Slot::Done(twice) => *twice,
        Slot::Ready(_) => 0,
        Slot::Empty => 0,
    }
}

/// Three slots of which one is empty, between two others.
#[test]
fn each_task_is_done_once(rt: HostRuntime) {
    let mut first = Slot::Ready(Double { value: 1 });
    let mut others = [
        Slot::Ready(Double { value: 20 }),
        Slot::Empty,
        Slot::Ready(Double { value: 300 }),
    ];
    let mut last = Slot::Ready(Double { value: 4 });
    run_crew(&rt, &mut first, &mut others, &mut last);
    let [a, b, c] = &others;
    let answers = [given(&first), given(a), given(b), given(c), given(&last)];
    assert_eq!(rt; answers, [2, 40, 0, 600, 8]);
}

fn is_sent<T: Send>(_value: &T) {}

/// What is given to another thread, and what comes back.
fn parts_are_sent<R: Wait + Sync, V: Vault + Send, G: Gate + Sync>(
    worker: &WorkerPart<'_, R, G>,
    exporter: &ExporterPart<'_, R, V, G>,
    end: &WorkEnd,
    vault: &&mut V,
) {
    is_sent(worker);
    is_sent(exporter);
    is_sent(end);
    is_sent(vault);
}
