//! Examples, worked out by hand.
use crate::{Answer, Call, Question, Refusal, Reply, Run, replay};
use choosing::rules::EarliestDeadline;
use packing::rules::FirstFit;
use packing::{Load, Opening};

fn opening(cores: u32, unit: u32, frames: u32, rates: &[u16]) -> Opening {
    Opening {
        load: Load { cores, unit, rates },
        frames,
    }
}

/// Three tasks of 2 parts of 3 on two cores, for two frames.
fn three_loops() -> Run<EarliestDeadline> {
    let mut run = Run::new(EarliestDeadline);
    let _ = run.open(&FirstFit, &opening(2, 3, 2, &[2; 3]));
    run
}

/// The number of a refusal; 0 where the call is granted.
fn number(answer: Result<(), Refusal>) -> u8 {
    match answer {
        Ok(()) => 0,
        Err(refusal) => refusal.number(),
    }
}

#[test]
fn a_new_run_takes_deadlines_within_it(rt: HostRuntime) {
    let mut run = three_loops();
    assert_eq!(rt; number(run.announce(0, 0)), 14);
    assert_eq!(rt; number(run.announce(0, 3)), 15);
    assert_eq!(rt; number(run.announce(0, 2)), 0);
    assert_eq!(rt; number(run.announce(0, 2)), 13);
    assert_eq!(rt; number(run.announce(3, 2)), 12);
}

#[test]
fn a_core_list_may_be_too_short_or_too_long(rt: HostRuntime) {
    let mut run = three_loops();
    let mut list = [9; 3];
    assert_eq!(rt; number(run.tick(&mut [9])), 21);
    assert_eq!(rt; number(run.tick(&mut list)), 22);
    let _ = run.announce(0, 1);
    let _ = run.announce(1, 1);
    let _ = run.announce(2, 1);
    assert_eq!(rt; number(run.tick(&mut list)), 0);
    assert_eq!(rt; list, [1, 2, 9]);
}

#[test]
fn a_run_never_opened_is_over(rt: HostRuntime) {
    let mut run = Run::new(EarliestDeadline);
    assert_eq!(rt; number(run.tick(&mut [])), 11);
    assert_eq!(rt; run.present_tick(), 0);
    assert_eq!(rt; run.jobs(), 0);
}

#[test]
fn one_frame_of_one_tick(rt: HostRuntime) {
    let mut run = Run::new(EarliestDeadline);
    let _ = run.open(&FirstFit, &opening(1, 1, 1, &[1]));
    let _ = run.announce(0, 1);
    let mut list = [9];
    assert_eq!(rt; number(run.tick(&mut list)), 0);
    assert_eq!(rt; list, [0]);
    assert_eq!(rt; number(run.tick(&mut list)), 11);
}

/// The number that an answer tells; 0 where it tells none.
fn told(answer: Answer) -> u64 {
    match answer {
        Ok(Reply::Number(number)) => number,
        _ => 0,
    }
}

#[test]
fn calls_are_replayed(rt: HostRuntime) {
    let calls = [
        Call::Announce {
            task: 0,
            deadline: 1,
        },
        Call::Tick { entries: 1 },
        Call::Ask(Question::PresentTick),
    ];
    let mut answers = [Ok(Reply::Done); 3];
    let _ = replay(
        &FirstFit,
        EarliestDeadline,
        &opening(1, 1, 1, &[1]),
        &calls,
        &mut answers,
    );
    assert_eq!(rt; told(answers[2]), 1);
}
