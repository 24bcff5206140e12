//! Reads a table of calls from standard input, puts them to runs, and prints each line with the answer; `?` where a line is no
//! call.
#![tactic(auto)]

mod answer;
mod call;
mod runs;

use call::parse;
use runs::Runs;
use std::io;
use std::io::{BufRead, BufReader, BufWriter, Write};
use std::str::from_utf8;

fn main(rt: HostRuntime) -> io::Result<()> {
    let mut out = BufWriter::new(rt.alloc(), rt.stdout())?;
    let mut runs = Runs::new();
    for line in BufReader::new(rt.alloc(), rt.stdin())?.split(rt.alloc(), b'\n') {
        let line = line?;
        out.write_all(&line)?;
        let call = match from_utf8(&line) {
            Ok(text) => parse(rt.alloc(), text)?,
            Err(_) => None,
        };
        match call {
            Some(call) => match runs.put(&call) {
                Ok(reply) => writeln!(out, " {reply}")?,
                Err(refused) => writeln!(out, " {refused}")?,
            },
            None => writeln!(out, " ?")?,
        }
    }
    out.flush()
}
