//! A list of entries behind a turn: tried while it is taken, closed after joins, and shared by two threads.

mod log;

ghost use Rattle.std.specs.Prelude.{◌≡◌, false, IfOk, IfSome};
ghost use Rattle.turn_lock.specs.Passes.{IsOf, first_pass};
ghost use Rattle.turn_lock.specs.Trials.{AddsAlone};

use crate::pass::{Entered, Pass};
use crate::turn::Turn;
use log::Log;
use std::alloc::{AllocError, Global};
use std::sync::Wait;
use std::test::Fail;
use std::thread;
use std::thread::Threads;

fn started(alloc: Global) -> Result<(Turn<Log>, Pass<Log>), AllocError>
    ensures { IfOk result (λ made. made.1 ≡ first_pass made.0) }
{
    match Turn::start(alloc, Log::new(alloc, 10)) {
        Ok(made) => Ok(made),
        Err((_, error)) => Err(error),
    }
}

/// Enters, adds a stop, and leaves.
fn stop<R: Wait>(rt: &R, turn: &Turn<Log>, pass: &mut Pass<Log>) -> Result<(), AllocError>
    requires turn { IsOf turn.now pass.old }
    requires free { pass.old.holds ≡ false }
    ensures { AddsAlone pass.old pass.new }
{
    let by = pass.number();
    let mut held = turn.enter(rt, pass);
    let added = held.value.stop(by);
    turn.leave(pass, held);
    added
}

/// Half of the word, where the turn is taken.
fn busy(turn: &Turn<Log>, pass: &mut Pass<Log>) -> Option<u64>
    requires turn { IsOf turn.now pass.old }
    requires free { pass.old.holds ≡ false }
    ensures { AddsAlone pass.old pass.new }
{
    match turn.try_enter(pass) {
        Entered::In(held) => {
            turn.leave(pass, held);
            None
        }
        Entered::Busy { seen } => Some(seen),
    }
}

#[test]
fn a_taken_turn_is_busy(rt: HostRuntime) -> Result<(), Fail> {
    let (turn, mut main) = started(rt.alloc())?;
    let mut other = turn.split(&mut main);
    stop(&rt, &turn, &mut main)?;
    let held = turn.enter(&rt, &mut main);
    let told = busy(&turn, &mut other);
    let looked = turn.look(&mut other);
    turn.leave(&mut main, held);
    assert_eq!(rt; (told, looked), (Some(1), 1));
    assert_eq!(rt; busy(&turn, &mut other), None);
    Ok(())
}

/// Whose the entries are, in order.
fn callers(alloc: Global, log: &Log) -> Result<Vec<u32>, AllocError> {
    log.entries().iter().map(|entry| entry.pass).collect(alloc)
}

#[test]
fn joined_passes_are_named_at_the_end(rt: HostRuntime) -> Result<(), Fail> {
    let (turn, mut main) = started(rt.alloc())?;
    let mut one = turn.split(&mut main);
    let mut two = turn.split(&mut main);
    stop(&rt, &turn, &mut two)?;
    stop(&rt, &turn, &mut one)?;
    stop(&rt, &turn, &mut main)?;
    let note = turn.note(&mut main);
    turn.take_note(&mut two, note);
    let numbers = (main.made(), one.number(), two.number());
    turn.join(&mut one, two);
    turn.join(&mut main, one);
    let log = turn.close(main);
    assert_eq!(rt; numbers, (2, 1, 2));
    assert!(rt; callers(rt.alloc(), &log)?.as_slice() == [2, 1, 0].as_slice());
    Ok(())
}

/// Two threads add five stops each.
fn stop_in_two<R: Threads + Wait + Sync>(
    rt: &R,
    turn: &Turn<Log>,
    main: Pass<Log>,
    other: Pass<Log>,
) -> Option<(Pass<Log>, Pass<Log>)>
    requires main { IsOf turn.now main × (main.holds ≡ false) }
    requires other { IsOf turn.now other × (other.holds ≡ false) }
    ensures main { IfSome result (λ passes. AddsAlone main passes.0) }
    ensures other { IfSome result (λ passes. AddsAlone other passes.1) }
{
    let (main, other) = thread::join(
        rt,
        move ||
            requires { IsOf turn.now main × (main.holds ≡ false) }
            ensures { IfSome result (AddsAlone main) }
        { stop_five(rt, turn, main) },
        move ||
            requires { IsOf turn.now other × (other.holds ≡ false) }
            ensures { IfSome result (AddsAlone other) }
        { stop_five(rt, turn, other) },
    );
    Some((main?, other?))
}

fn stop_five<R: Wait>(rt: &R, turn: &Turn<Log>, mut pass: Pass<Log>) -> Option<Pass<Log>>
    requires { IsOf turn.now pass × (pass.holds ≡ false) }
    ensures { IfSome result (AddsAlone pass) }
{
    for _ in 0..5 {
        stop(rt, turn, &mut pass).ok()?;
    }
    Some(pass)
}

#[test]
fn threads_take_turns(rt: HostRuntime) -> Result<(), Fail> {
    let (turn, mut main) = started(rt.alloc())?;
    let other = turn.split(&mut main);
    let Some((mut main, other)) = stop_in_two(&rt, &turn, main, other) else {
        return Err(Fail::new("no memory"));
    };
    turn.join(&mut main, other);
    let log = turn.close(main);
    assert_eq!(rt; log.entries().len(), 10);
    Ok(())
}
