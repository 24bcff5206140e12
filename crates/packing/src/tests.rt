//! Examples, worked out by hand.
use crate::rules::*;
use crate::{Fitting, Load, Opening, OpeningRefusal, Plan, Refusal};

/// A load.
fn load(cores: u32, unit: u32, rates: &[u16]) -> Load<'_> {
    Load { cores, unit, rates }
}

/// The number of the refusal of a load by first fit; 0 where it is planned.
fn refused(cores: u32, unit: u32, rates: &[u16]) -> u8 {
    let mut plan = Plan::blank();
    match plan.make(&FirstFit, &load(cores, unit, rates)) {
        Ok(()) => 0,
        Err(refusal) => refusal.number(),
    }
}

/// How many servers each level has; 0 above the last.
fn servers(cores: u32, unit: u32, rates: &[u16]) -> [usize; 5] {
    let mut plan = Plan::blank();
    let _ = plan.make(&FirstFit, &load(cores, unit, rates));
    let mut servers = [0; 5];
    for (count, level) in servers.iter_mut().zip(plan.packed_levels().iter()) {
        *count = level.server_rates().len();
    }
    servers
}

#[test]
fn fitting_rules_differ(rt: HostRuntime) {
    assert_eq!(rt; FirstFit.fit(&[5, 6, 3], 10, 4), Some(0));
    assert_eq!(rt; BestFit.fit(&[5, 6, 3], 10, 4), Some(1));
    assert_eq!(rt; WorstFit.fit(&[5, 6, 3], 10, 4), Some(2));
    assert_eq!(rt; FirstFit.fit(&[5, 6, 3], 10, 8), None);
    assert_eq!(rt; BestFit.fit(&[5, 6, 3], 10, 8), None);
    assert_eq!(rt; WorstFit.fit(&[5, 6, 3], 10, 8), None);
}

#[test]
fn first_of_equals(rt: HostRuntime) {
    assert_eq!(rt; BestFit.fit(&[2, 6, 6], 10, 4), Some(1));
    assert_eq!(rt; WorstFit.fit(&[6, 3, 3], 10, 4), Some(1));
    assert_eq!(rt; FirstFit.fit(&[65535, 65535], 65535, 65535), None);
    assert_eq!(rt; FirstFit.fit(&[], 0, 0), None);
}

#[test]
fn servers_by_level(rt: HostRuntime) {
    assert_eq!(rt; servers(2, 3, &[2; 3]), [3, 1, 0, 0, 0]);
    assert_eq!(rt; servers(7, 11, &[7; 11]), [11, 6, 3, 1, 0]);
    assert_eq!(rt; servers(3, 5, &[3; 5]), [5, 3, 1, 0, 0]);
    assert_eq!(rt; servers(2, 5, &[2; 5]), [3, 1, 0, 0, 0]);
    assert_eq!(rt; servers(2, 10, &[4]), [2, 0, 0, 0, 0]);
    assert_eq!(rt; servers(16, 4, &[1; 64]), [16, 0, 0, 0, 0]);
    assert_eq!(rt; servers(16, 1000, &[516; 31]), [31, 16, 1, 0, 0]);
}

#[test]
fn idle_tasks_fill_the_cores(rt: HostRuntime) {
    let mut plan = Plan::blank();
    let _ = plan.make(&FirstFit, &load(2, 10, &[4]));
    assert_eq!(rt; plan.tasks, 3);
    assert_eq!(rt; plan.task_rates().get(1), Some(&10));
    assert_eq!(rt; plan.task_rates().get(2), Some(&6));
    assert_eq!(rt; plan.reductions(), 0);
    let _ = plan.make(&FirstFit, &load(16, 1000, &[1; 64]));
    assert_eq!(rt; plan.task_rates().len(), 80);
}

#[test]
fn refusals(rt: HostRuntime) {
    assert_eq!(rt; refused(0, 0, &[]), 1);
    assert_eq!(rt; refused(17, 3, &[1]), 1);
    assert_eq!(rt; refused(1, 1001, &[]), 2);
    assert_eq!(rt; refused(1, 0, &[1]), 2);
    assert_eq!(rt; refused(1, 3, &[]), 4);
    assert_eq!(rt; refused(16, 1000, &[1; 65]), 4);
    assert_eq!(rt; refused(2, 3, &[3, 0, 4]), 5);
    assert_eq!(rt; refused(2, 3, &[3, 3, 1]), 6);
    assert_eq!(rt; refused(2, 3, &[3, 3]), 0);
}

#[test]
fn a_refused_load_leaves_the_plan(rt: HostRuntime) {
    let mut plan = Plan::blank();
    assert_eq!(rt; plan.make(&WorstFit, &load(2, 3, &[2; 3])), Ok(()));
    assert_eq!(rt;
        plan.make(&WorstFit, &load(2, 3, &[2, 4, 0])),
        Err(Refusal::BadRate(1))
    );
    assert_eq!(rt; Refusal::BadRate(1).task(), Some(1));
    assert_eq!(rt; plan.tasks, 3);
    assert_eq!(rt; plan.path(2), [Some(2), Some(0), None, None, None]);
    assert_eq!(rt; plan.path(3), [None; 5]);
}

#[test]
fn a_plan_is_copied(rt: HostRuntime) {
    let mut plan = Plan::blank();
    let _ = plan.make(&FirstFit, &load(7, 11, &[7; 11]));
    assert_eq!(rt; plan.copy().path(4), plan.path(4));
    assert_eq!(rt; plan.copy().reductions(), 3);
    assert_eq!(rt;
        plan.packed_levels()
            .first()
            .map_or(0, |level| level.copy().server_rates().len()),
        11
    );
}

#[test]
fn plans_and_levels_are_copied_by_name(rt: HostRuntime) {
    let mut plan = Plan::blank();
    let twin = plan;
    let _ = plan.make(&FirstFit, &load(7, 11, &[7; 11]));
    assert_eq!(rt; (twin.tasks, twin.depth), (0, 0));
    assert_eq!(rt; (plan.tasks, plan.depth), (11, 4));
    let level = plan.levels[1];
    let same = level;
    assert_eq!(rt; (level.items, level.servers), (11, 6));
    assert_eq!(rt; same.home(10), level.home(10));
    assert_eq!(rt; same.home(11), None);
    assert_eq!(rt; same.item_homes().len(), 11);
}

/// The number of the refusal of an opening by first fit; 0 where its plan is made.
fn refused_opening(cores: u32, unit: u32, frames: u32, rates: &[u16]) -> u8 {
    let opening = Opening {
        load: load(cores, unit, rates),
        frames,
    };
    let mut plan = Plan::blank();
    match plan.make_for_run(&FirstFit, &opening) {
        Ok(()) => 0,
        Err(refusal) => refusal.number(),
    }
}

#[test]
fn refusals_of_openings(rt: HostRuntime) {
    assert_eq!(rt; refused_opening(0, 0, 0, &[]), 1);
    assert_eq!(rt; refused_opening(17, 3, 1, &[1]), 1);
    assert_eq!(rt; refused_opening(1, 1001, 0, &[]), 2);
    assert_eq!(rt; refused_opening(1, 0, 1, &[1]), 2);
    assert_eq!(rt; refused_opening(1, 3, 0, &[]), 3);
    assert_eq!(rt; refused_opening(1, 3, 65536, &[1]), 3);
    assert_eq!(rt; refused_opening(1, 3, 65535, &[]), 4);
    assert_eq!(rt; refused_opening(16, 1000, 1, &[1; 65]), 4);
    assert_eq!(rt; refused_opening(2, 3, 1, &[3, 0, 4]), 5);
    assert_eq!(rt; refused_opening(2, 3, 1, &[3, 3, 1]), 6);
    assert_eq!(rt; refused_opening(2, 3, 65535, &[3, 3]), 0);
    assert_eq!(rt; OpeningRefusal::Load(Refusal::BadRate(1)).task(), Some(1));
    assert_eq!(rt; OpeningRefusal::BadFrames.task(), None);
}
