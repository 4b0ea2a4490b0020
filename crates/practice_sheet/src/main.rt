#![tactic(auto)]

// Prints the opening box of the practice catalogue, what each of its rules narrows it to, and a run of a sheet over it.
use fields::fault::Fault;
use forms::form::Form;
use kits::book::Book;
use kits::choices::Choices;
use kits::label::Label;
use kits::label_box::LabelBox;
use kits::slot_number::SlotNumber;
use practice::practice_cells;
use rule_books::table_book::TableBook;
use sheet_run::print_sheet_run;
use std::{fmt, io};

mod sheet_run;

// A label as the list of its members.
#[derive(Clone, Copy)]
struct Members(Label);

impl fmt::Display for Members {
    fn fmt<W: fmt::Write>(&self, f: &mut fmt::Formatter<W>) -> fmt::Result {
        let lowest = u32::from(self.0.lowest());
        write!(f, "{{{lowest}")?;
        for number in (lowest + 1..16).filter(|number| self.0.has(*number)) {
            write!(f, " {number}")?;
        }
        write!(f, "}}")
    }
}

// The labels of the used slots.
fn print_box(rt: &HostRuntime, form: &Form, b: &LabelBox) -> io::Result<()> {
    for slot in (0..form.used()).filter_map(SlotNumber::new) {
        let members = Members(b.label(slot));
        print!(rt; " {members}")?;
    }
    println!(rt; "")
}

// The opening box without choices, and what each rule narrows it to.
fn print_narrowing(rt: &HostRuntime, form: &Form, book: &TableBook) -> io::Result<()> {
    let opening = form.opening(&Choices::none());
    let volume = opening.volume();
    print!(rt; "opening box, {volume} fillings:")?;
    print_box(rt, form, &opening)?;
    for rule in 0..book.count() {
        match book.narrow(rule, &opening) {
            Some(narrowed) => {
                print!(rt; "narrowed by rule {rule}:")?;
                print_box(rt, form, &narrowed)?;
            }
            None => println!(rt; "rule {rule} fails")?,
        }
    }
    Ok(())
}

fn main(rt: HostRuntime) -> io::Result<()> {
    let cells = practice_cells();
    let mut form = Form::fresh();
    if let Err(Fault { line, .. }) = form.take(&cells) {
        return println!(rt; "the practice catalogue is not taken, line {line}");
    }
    let book = TableBook::new(&cells);
    print_narrowing(&rt, &form, &book)?;
    print_sheet_run(&rt, form, book, cells[0])
}
