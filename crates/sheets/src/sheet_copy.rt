// A copy of a sheet: its mark, its rules in force and its rules gone, bit r standing for rule r.
#[derive(Clone, Copy, PartialEq, Eq, Debug)]
pub struct SheetCopy {
    pub mark: u16,
    pub force: u64,
    pub gone: u64,
}
