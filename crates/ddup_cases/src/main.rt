//! Runs whole cases of the program, over devices in memory, and prints how each went.
#![tactic(auto)]

mod case;
mod judging;

use crate::case::Case;
use std::io;
use std::io::{BufRead, BufReader};

/// Runs the cases of standard input one after another, and prints a line for each.
fn main(rt: HostRuntime) -> io::Result<()> {
    let alloc = rt.alloc();
    let mut case = Case::new(alloc);
    for line in BufReader::new(alloc, rt.reader())?.lines(alloc) {
        let line = line?;
        if line.as_str() == "end" {
            let verdict = case.run(alloc)?;
            println!(rt; "{}: {verdict}", case.name())?;
            case = Case::new(alloc);
        } else {
            case.take_in(alloc, &line)?;
        }
    }
    Ok(())
}
