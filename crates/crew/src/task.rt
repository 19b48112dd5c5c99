//! Work that one thread does, and its place.

ghost use Rattle.std.specs.Prelude.{◌≡◌};
ghost use Rattle.crew.specs.Slots.{IsReady, IsDone, Runs};

use std::mem;

/// Work that one thread does.
pub trait Task {
    type Output;

    ghost can_run: { Self → Type 0 };

    ghost run_gives: { Self → Self.Output → Type 0 };

    /// Does it.
    fn run(self) -> Self::Output
        requires { can_run self }
        ensures { run_gives self result };
}

/// The place of a task.
#[derive(Drop)]
pub enum Slot<T: Drop, A: Drop> {
    /// The task, which isn't done yet.
    Ready(T),
    /// What the task answered.
    Done(A),
    /// Neither.
    Empty,
}

impl<T: Drop, A: Drop> Default for Slot<T, A> {
    /// A slot without a task.
    fn default() -> Slot<T, A> {
        Slot::Empty
    }
}

/// Does the task of a slot, and puts its answer there. A slot without a task stays as it is.
pub fn run_slot<T: Task<Output = A> + Drop, A: Drop>(slot: &mut Slot<T, A>)
    requires { IsReady slot.old T.can_run }
    ensures { Runs slot.old slot.new T.run_gives }
{
    match mem::replace(slot, Slot::Empty) {
        Slot::Ready(task) => *slot = Slot::Done(task.run()),
        Slot::Done(answer) => *slot = Slot::Done(answer),
        Slot::Empty => {}
    }
}

/// The answer of a slot whose task was done.
pub fn answer_of<T: Drop, A: Drop>(slot: Slot<T, A>) -> A
    requires { IsDone slot }
    ensures { slot ≡ Slot.Done result }
{
    match slot {
        Slot::Done(answer) => answer,
        _ => unreachable!(),
    }
}
