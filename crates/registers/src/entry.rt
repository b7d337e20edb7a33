//! An entry that is written into a register.

use codes::Code;

/// What names an entry: its identity, and a tag that the host program chose.
#[derive(Clone, Copy, Debug, PartialEq, Eq)]
pub struct Name {
    pub identity: u32,
    pub tag: u32,
}

/// A name and the three codes of a label.
// That the three are codes stays a clause of `write_entry`: tried as a ghost field, the checker finds no proof that it is a proposition.
#[derive(Clone, Copy)]
pub struct Entry {
    pub name: Name,
    pub start: Code,
    pub end: Code,
    pub parent: Code,
}
