//! Prints a plan with the names of its tasks.
use crate::names::Sheet;
use packing::Plan;
use showing::{LevelText, TaskText};
use std::io;

/// Prints the numbers of the head, and each task with its numbers; idle tasks have no period.
fn print_tasks(rt: &HostRuntime, sheet: &Sheet, plan: &Plan) -> io::Result<()> {
    let head = sheet.head;
    println!(rt;
        "cores {}, unit {}, frames {}",
        head.cores, head.unit, head.frames
    )?;
    for (task, rate) in plan.task_rates().iter().enumerate() {
        let name = TaskText { names: sheet, task };
        print!(rt; "  {name}: rate {rate}")?;
        if let Some(entry) = sheet.tasks.get(task) {
            print!(rt; ", period {}", entry.period)?;
        }
        println!(rt; "")?;
    }
    Ok(())
}

/// Prints the way of a task of the sheet: its server, the server of that one's dual, and so on to a root.
fn print_way(rt: &HostRuntime, sheet: &Sheet, plan: &Plan, task: usize) -> io::Result<()> {
    let name = TaskText { names: sheet, task };
    print!(rt; "  {name}")?;
    for (depth, server) in plan.path(task).iter().flatten().enumerate() {
        let before = if depth == 0 { ": " } else { ", " };
        print!(rt; "{before}{server}")?;
    }
    println!(rt; "")
}

/// Prints the plan of a sheet.
pub(crate) fn print_plan(rt: &HostRuntime, sheet: &Sheet, plan: &Plan) -> io::Result<()> {
    print_tasks(rt, sheet, plan)?;
    for (depth, level) in plan.packed_levels().iter().enumerate() {
        let text = LevelText {
            names: sheet,
            unit: plan.unit,
            depth,
            level,
        };
        print!(rt; "{text}")?;
    }
    println!(rt; "reductions {}", plan.reductions())?;
    println!(rt; "ways up, server by server")?;
    for task in 0..sheet.tasks.len() {
        print_way(rt, sheet, plan, task)?;
    }
    Ok(())
}
