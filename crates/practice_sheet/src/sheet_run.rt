use forms::form::Form;
use kits::filling::Filling;
use kits::slot_number::SlotNumber;
use rule_books::table_book::TableBook;
use sheets::refusal::Refusal;
use sheets::search::End;
use sheets::sheet::Sheet;
use sheets::sheet_copy::SheetCopy;
use std::io;

// What a call answered: that it was done, or the number of its refusal.
fn print_answer(rt: &HostRuntime, answer: Result<(), Refusal>) -> io::Result<()> {
    match answer {
        Ok(()) => println!(rt; "done"),
        Err(refusal) => println!(rt; "{refusal}"),
    }
}

// The numbers of the used slots.
fn print_kit(rt: &HostRuntime, used: u32, kit: &Filling) -> io::Result<()> {
    print!(rt; "kit")?;
    for slot in (0..used).filter_map(SlotNumber::new) {
        let number = kit.number(slot);
        print!(rt; " {number}")?;
    }
    Ok(())
}

// Searches with a budget, and says how the search ended and after how many steps.
fn print_find(
    rt: &HostRuntime,
    sheet: &mut Sheet<TableBook>,
    used: u32,
    budget: u32,
) -> io::Result<()> {
    print!(rt; "find with budget {budget}: ")?;
    match sheet.find(budget) {
        Ok((end, steps)) => {
            match end {
                End::Kit(kit) => print_kit(rt, used, &kit)?,
                End::NoKit => print!(rt; "no kit")?,
                End::Paused => print!(rt; "paused")?,
            }
            println!(rt; " after {steps} steps")
        }
        Err(refusal) => print_answer(rt, Err(refusal)),
    }
}

// Takes a sheet over the catalogue's form and rules through a run of calls.
pub(crate) fn print_sheet_run(
    rt: &HostRuntime,
    form: Form,
    book: TableBook,
    mark: u16,
) -> io::Result<()> {
    let used = form.used();
    let mut sheet = Sheet::new(form, book, mark);
    print!(rt; "rejoin a copy with rules 0 to 3 in force: ")?;
    let copy = SheetCopy {
        mark,
        force: 0b1111,
        gone: 0,
    };
    print_answer(rt, sheet.rejoin(copy))?;
    print_find(rt, &mut sheet, used, 1)?;
    print_find(rt, &mut sheet, used, 100)?;
    print!(rt; "withdraw rule 1: ")?;
    print_answer(rt, sheet.withdraw(1))?;
    print!(rt; "enter rule 1: ")?;
    print_answer(rt, sheet.enter(1))?;
    print_find(rt, &mut sheet, used, 100)?;
    print!(rt; "fix slot 2 to part 1: ")?;
    print_answer(rt, sheet.fix(2, 1))?;
    print_find(rt, &mut sheet, used, 100)
}
