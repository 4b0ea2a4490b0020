#![tactic(auto)]

ghost use Rattle.std.specs.Prelude.{◌≡◌, ◌≤◌, length, take, IfOk, IfSome};

use anyhow::Context;
use catalogue::{read, write};
use fields::fault::Fault;
use fields::text_line::named_line;
use std::fs::File;
use std::io;
use std::io::{Read, Write};

// One byte more than a catalogue may have, so that a longer one is seen to be too long.
const TEXT_ROOM: usize = 65_537;

const CELL_ROOM: usize = 8192;

// Reads until the source ends or the buffer is full, and answers how many bytes came: where the bytes of the source are known, the first that fit.
fn fill<R: Read>(from: &mut R, buffer: &mut [u8]) -> io::Result<usize>
    ensures fits { IfOk result (λ n. n ≤ length buffer.old) }
    ensures came { IfOk result (λ n. IfSome (R.remaining from.old) (λ bytes. take n buffer.new ≡ take (length buffer.old) bytes)) }
{
    let mut n = 0;
    while n < buffer.len() {
        let got = from.read(&mut buffer[n..])?;
        if got == 0 {
            break;
        }
        n += got;
    }
    Ok(n)
}

// A refusal, and then the line that it names, if there is one.
fn print_fault(rt: &HostRuntime, fault: Fault, text: &[u8]) -> io::Result<()> {
    println!(rt; "{fault}")?;
    if let Some(bytes) = named_line(fault, text, &[]) {
        let mut out = rt.stdout();
        out.write_all(bytes)?;
        out.write_all(b"\n")?;
    }
    Ok(())
}

// The mark, how many slots and rules there are, and the cells.
fn print_cells(rt: &HostRuntime, cells: &[u16]) -> io::Result<()> {
    if let [mark, slots, rest @ ..] = cells {
        let rules = rest.get(usize::from(*slots)).copied().unwrap_or(0);
        println!(rt; "mark={mark} slots={slots} rules={rules}")?;
    }
    let count = cells.len();
    print!(rt; "cells={count}:")?;
    for cell in cells {
        print!(rt; " {cell}")?;
    }
    println!(rt; "")
}

// Writes the cells as a text again, and says whether that is the text that they were read from.
fn print_written(rt: &HostRuntime, cells: &[u16], text: &[u8]) -> io::Result<()> {
    // Lent to the call, which asks for all the room that it may take: a Vec would be made as long first.
    let mut again = [0u8; TEXT_ROOM];
    match write(cells, &mut again) {
        Ok(count) if &again[0..count] == text => println!(rt;
            "written again: the same {count} bytes"
        ),
        Ok(count) => println!(rt; "written again: {count} other bytes"),
        Err(fault) => print_fault(rt, fault, text),
    }
}

fn main(rt: HostRuntime) -> anyhow::Result<()> {
    let mut file = File::open(&rt, "catalogue.txt")
        .ok()
        .context("catalogue.txt cannot be opened")?;
    // In fixed room, so that the program needs no heap, and so cannot run out of it.
    let mut buffer = [0u8; TEXT_ROOM];
    let long = fill(&mut file, &mut buffer)?;
    let text = &buffer[..long];
    println!(rt; "catalogue.txt: {long} bytes")?;
    // Lent to the call, as above.
    let mut cells = [0u16; CELL_ROOM];
    match read(text, &mut cells) {
        Ok(count) => {
            let cells = &cells[0..count];
            print_cells(&rt, cells)?;
            print_written(&rt, cells, text)?;
        }
        Err(fault) => print_fault(&rt, fault, text)?,
    }
    Ok(())
}
