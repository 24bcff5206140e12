//! Reads a table of sheets from standard input, one to a line, and prints for each what it holds, or why it or its opening is
//! refused.
#![tactic(auto)]

mod escape;

use escape::unescape;
use packing::rules::FirstFit;
use packing::{Plan, SHEET_TASKS};
use sheet::{Entry, Fault, Head, rates, read};
use std::io;
use std::io::{BufRead, BufReader};

/// How many entries are not blank.
fn filled(table: &[Entry]) -> usize {
    table.iter().filter(|entry| **entry != Entry::BLANK).count()
}

/// The reductions of the plan of a sheet that was read.
fn reductions(head: Head, rates: &[u16]) -> Result<usize, Fault> {
    let mut plan = Plan::blank();
    plan.make_for_run(&FirstFit, &head.opening(rates))?;
    Ok(plan.reductions())
}

/// Prints the head and the reductions of the plan, or why there is no plan.
fn print_head(rt: &HostRuntime, head: Head, plan: Result<usize, Fault>) -> io::Result<()> {
    match plan {
        Ok(reductions) => print!(rt;
            "ok,{},{},{},{reductions}",
            head.cores, head.unit, head.frames
        ),
        Err(fault) => print!(rt; "{fault}"),
    }
}

/// Prints the tasks: place and size of the name, rate and period of each.
fn print_tasks(rt: &HostRuntime, tasks: &[Entry]) -> io::Result<()> {
    for entry in tasks.iter() {
        print!(rt;
            " {},{},{},{}",
            entry.place, entry.size, entry.rate, entry.period
        )?;
    }
    Ok(())
}

/// Reads one sheet into a table that is not blank and prints its line, at the end of which stands how many entries are filled.
fn try_sheet(rt: &HostRuntime, bytes: &[u8]) -> io::Result<()> {
    let mut table = [Entry {
        place: 1,
        size: 1,
        rate: 1,
        period: 1,
    }; SHEET_TASKS];
    match read(bytes, &mut table) {
        Ok(head) => {
            let rates = rates(&table);
            print_head(rt, head, reductions(head, &rates[..head.tasks]))?;
            print_tasks(rt, &table[..head.tasks])?;
        }
        Err(fault) => print!(rt; "{fault}")?,
    }
    println!(rt; " filled {}", filled(&table))
}

fn main(rt: HostRuntime) -> io::Result<()> {
    for line in BufReader::new(rt.alloc(), rt.stdin())?.split(rt.alloc(), b'\n') {
        let line = line?;
        let bytes = unescape(rt.alloc(), &line)?;
        try_sheet(&rt, &bytes)?;
    }
    Ok(())
}
