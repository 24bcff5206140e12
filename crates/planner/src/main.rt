//! Shows the plans of some loads, level by level, and follows one task of each up to its root.
#![tactic(auto)]

mod names;

use names::Numbered;
use packing::rules::FirstFit;
use packing::{Load, Plan, Refusal};
use showing::{LevelText, TaskText};
use std::io;

/// Prints the number of a refusal, and the task that it names.
fn print_refusal(rt: &HostRuntime, refusal: Refusal) -> io::Result<()> {
    let number = refusal.number();
    match refusal.task() {
        Some(task) => println!(rt; "refused: {number}, task {task}"),
        None => println!(rt; "refused: {number}"),
    }
}

/// Prints the cores, the unit and the rates of all tasks.
fn print_tasks(rt: &HostRuntime, load: &Load, names: &Numbered, plan: &Plan) -> io::Result<()> {
    let cores = load.cores;
    let unit = load.unit;
    println!(rt; "load: {cores} cores, unit {unit}")?;
    for (task, rate) in plan.task_rates().iter().enumerate() {
        let name = TaskText { names, task };
        println!(rt; "  {name}: rate {rate}")?;
    }
    Ok(())
}

/// Prints one server on the way of a task, and the rate of its dual.
fn print_step(rt: &HostRuntime, plan: &Plan, depth: usize, server: u8) -> io::Result<()> {
    let Some(level) = plan.packed_levels().get(depth) else {
        return Ok(());
    };
    let Some(rate) = level.server_rates().get(usize::from(server)) else {
        return Ok(());
    };
    let rest = plan.unit.saturating_sub(*rate);
    print!(rt; "  level {depth}: in server {server}, rate {rate}")?;
    if rest == 0 {
        println!(rt; ", a root")
    } else {
        println!(rt; ", whose dual has rate {rest}")
    }
}

/// Prints the way of a task: its server, the server of that one's dual, and so on to a root.
fn print_path(rt: &HostRuntime, plan: &Plan, task: usize) -> io::Result<()> {
    if let Some(rate) = plan.task_rates().get(task) {
        println!(rt; "the way of task {task}, rate {rate}")?;
    }
    for (depth, server) in plan.path(task).iter().flatten().enumerate() {
        print_step(rt, plan, depth, *server)?;
    }
    Ok(())
}

/// Prints a plan, and then the way of one task.
fn print_plan(rt: &HostRuntime, load: &Load, plan: &Plan, task: usize) -> io::Result<()> {
    let names = Numbered {
        own: load.rates.len(),
    };
    print_tasks(rt, load, &names, plan)?;
    for (depth, level) in plan.packed_levels().iter().enumerate() {
        let text = LevelText {
            names: &names,
            unit: plan.unit,
            depth,
            level,
        };
        print!(rt; "{text}")?;
    }
    let reductions = plan.reductions();
    println!(rt; "reductions: {reductions}")?;
    print_path(rt, plan, task)?;
    println!(rt; "")
}

/// Plans a load by first fit and prints the plan with the way of one task, or the refusal.
fn show(rt: &HostRuntime, load: Load, task: usize) -> io::Result<()> {
    let mut plan = Plan::blank();
    match plan.make(&FirstFit, &load) {
        Ok(()) => print_plan(rt, &load, &plan, task),
        Err(refusal) => print_refusal(rt, refusal),
    }
}

fn main(rt: HostRuntime) -> io::Result<()> {
    let thirds = Load {
        cores: 2,
        unit: 3,
        rates: &[2; 3],
    };
    show(&rt, thirds, 0)?;
    let elevenths = Load {
        cores: 7,
        unit: 11,
        rates: &[7; 11],
    };
    show(&rt, elevenths, 4)?;
    let spare = Load {
        cores: 2,
        unit: 10,
        rates: &[4],
    };
    show(&rt, spare, 0)?;
    let too_much = Load {
        cores: 2,
        unit: 3,
        rates: &[3, 3, 1],
    };
    show(&rt, too_much, 0)
}
