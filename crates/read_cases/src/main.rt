#![tactic(auto)]

// Reads each case of standard input as a catalogue, and prints a line on what came of it.
mod case;
mod escape;
mod verdict;

use case::Case;
use std::io::{BufRead, BufReader};
use verdict::Verdict;

// The loop is the program, and names its own types: over a function that takes a closure nothing of it would be shorter.
fn main(rt: HostRuntime) -> anyhow::Result<()> {
    let heap = rt.alloc();
    for line in BufReader::new(heap, rt.stdin())?.lines(heap) {
        let line = line?;
        let case = Case::parse(heap, line.as_str())?;
        let verdict = Verdict::of(heap, &case)?;
        let name = case.name;
        println!(rt; "{name} {verdict}")?;
    }
    Ok(())
}
