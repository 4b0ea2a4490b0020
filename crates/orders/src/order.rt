// What a line of an order text asks of a sheet.
#[derive(Clone, Copy, PartialEq, Eq, Debug)]
pub enum Order {
    Enter(u32),
    Withdraw(u32),
    // With a copy's mark, its set in force and its set gone.
    Rejoin { mark: u32, force: u64, gone: u64 },
    Fix { slot: u32, part: u32 },
    Bar(u32),
    Free(u32),
    // Begin, one work with this budget, and close.
    Find(u32),
}
