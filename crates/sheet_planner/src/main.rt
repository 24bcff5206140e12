//! Reads a load sheet from standard input and prints its plan by first fit, level by level; or `no` with the number, the line
//! and the place of its refusal, and ends with status 1.
#![tactic(auto)]

mod names;
mod show;

use names::Sheet;
use packing::rules::FirstFit;
use packing::{Plan, SHEET_TASKS};
use sheet::{Entry, Fault, LONGEST, rates, read};
use show::print_plan;
use std::io;
use std::io::Read;

/// Reads a sheet into the table and makes its plan.
fn plan_sheet<'a>(
    bytes: &'a [u8],
    table: &'a mut [Entry; SHEET_TASKS],
    plan: &mut Plan,
) -> Result<Sheet<'a>, Fault> {
    let head = read(bytes, table)?;
    let rates = rates(table);
    plan.make_for_run(&FirstFit, &head.opening(&rates[..head.tasks]))?;
    let tasks = &table[..head.tasks];
    Ok(Sheet { bytes, head, tasks })
}

fn main(rt: HostRuntime) -> io::Result<()> {
    let mut bytes = Vec::new(rt.alloc());
    rt.stdin().take(LONGEST as u64 + 1).read_to_end(&mut bytes)?;
    let mut table = [Entry::BLANK; SHEET_TASKS];
    let mut plan = Plan::blank();
    match plan_sheet(&bytes, &mut table, &mut plan) {
        Ok(sheet) => print_plan(&rt, &sheet, &plan),
        Err(fault) => {
            println!(rt; "{fault}")?;
            Err(io::Error::from(io::ErrorKind::InvalidData))
        }
    }
}
