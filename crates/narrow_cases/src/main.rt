#![tactic(auto)]

// Takes each book of standard input, narrows the boxes that follow it, and prints a line on what came of each.
mod case;
mod outcome;

use case::Case;
use kits::book::Book;
use outcome::Outcome;
use rule_books::table_book::TableBook;
use std::io::{BufRead, BufReader};

fn run(rt: &HostRuntime) -> anyhow::Result<()> {
    let heap = rt.alloc();
    let mut book = TableBook::new(&[]);
    for line in BufReader::new(heap, rt.stdin())?.lines(heap) {
        let line = line?;
        match Case::parse(heap, line.as_str())? {
            Case::Book { name, cells } => {
                book = TableBook::new(cells.as_slice());
                let count = book.count();
                println!(rt; "{name} count={count}")?;
            }
            Case::Narrowing { name, rule, labels } => {
                let outcome = Outcome::of(&book, rule, labels);
                println!(rt; "{name} {outcome}")?;
            }
        }
    }
    Ok(())
}

fn main(rt: HostRuntime) -> anyhow::Result<()> {
    run(&rt)
}
