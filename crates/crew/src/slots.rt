//! Tasks that are done at once.

ghost use Rattle.std.specs.Prelude.{◌≡◌};
ghost use Rattle.std.specs.Thread.{IsSend, IsSync};
ghost use Rattle.crew.specs.Slots.{IsReady, Runs, AreReady, AllRun};

use crate::task::{Slot, Task, run_slot};
use std::thread;
use std::thread::Threads;

/// Does the tasks of all slots, each in a thread of its own. Where no thread can be made they are done one after another.
pub fn run_slots<R: Threads + Sync, T: Task<Output = A> + Send + Drop, A: Send + Drop>(
    rt: &R,
    slots: &mut [Slot<T, A>],
)
    requires { AreReady slots.old T.can_run }
    ensures { AllRun slots.old slots.new T.run_gives }
{
    let threads = slots.len().max(1);
    thread::for_each_mut(
        rt,
        slots,
        threads,
        &|_: usize, slot: &mut Slot<T, A>|
            requires { IsReady slot.old T.can_run }
            ensures { Runs slot.old slot.new T.run_gives }
        { run_slot(slot) },
    );
}

/// Does the first task in a thread of its own, and beside it those of some slots.
fn run_beside<
    R: Threads + Sync,
    S: Task<Output = A> + Send + Drop,
    T: Task<Output = B> + Send + Drop,
    A: Send + Drop,
    B: Send + Drop,
>(rt: &R, first: &mut Slot<S, A>, slots: &mut [Slot<T, B>])
    requires first { IsReady first.old S.can_run }
    requires slots { AreReady slots.old T.can_run }
    ensures first { Runs first.old first.new S.run_gives }
    ensures slots { AllRun slots.old slots.new T.run_gives }
{
    let mut one = ||
        requires { IsReady first.now S.can_run }
        ensures { Runs first.entry.now first.exit.now S.run_gives }
    { run_slot(first) };
    let mut others = ||
        requires { IsSync R.row × IsSend T.row × IsSend B.row × AreReady slots.now T.can_run }
        ensures { AllRun slots.entry.now slots.exit.now T.run_gives }
    { run_slots(rt, slots) };
    thread::join_mut(rt, &mut one, &mut others);
}

/// Does the last task in this thread, and beside it the first and those of some slots, each in a thread of its own. Where no thread
/// can be made the last task is done first, and the others after it.
pub fn run_crew<
    R: Threads + Sync,
    S: Task<Output = A> + Send + Drop,
    T: Task<Output = B> + Send + Drop,
    U: Task<Output = C> + Drop,
    A: Send + Drop,
    B: Send + Drop,
    C: Drop,
>(rt: &R, first: &mut Slot<S, A>, slots: &mut [Slot<T, B>], last: &mut Slot<U, C>)
    requires first { IsReady first.old S.can_run }
    requires slots { AreReady slots.old T.can_run }
    requires last { IsReady last.old U.can_run }
    ensures first { Runs first.old first.new S.run_gives }
    ensures slots { AllRun slots.old slots.new T.run_gives }
    ensures last { Runs last.old last.new U.run_gives }
{
    let mut others = ||
        requires { IsSync R.row × IsSend S.row × IsSend A.row × IsSend T.row × IsSend B.row
            × IsReady first.now S.can_run × AreReady slots.now T.can_run }
        ensures { Runs first.entry.now first.exit.now S.run_gives × AllRun slots.entry.now slots.exit.now T.run_gives }
    { run_beside(rt, first, slots) };
    let mut this = ||
        requires { IsReady last.now U.can_run }
        ensures { Runs last.entry.now last.exit.now U.run_gives }
    { run_slot(last) };
    thread::join_mut(rt, &mut others, &mut this);
}
