/// Why a list was not played to its end, by the number that is returned for it.
#[derive(Clone, Copy, PartialEq, Debug)]
pub enum Fault {
    // a byte that no entry begins with
    Unknown = 1,
    // the list ends within an entry
    CutShort = 2,
    // an operand is out of its range
    Operand = 3,
    // an answer does not fit
    NoRoom = 4,
}
