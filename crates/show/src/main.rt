//! The program `show`: reads a register's bytes and prints its lines.
#![tactic(auto)]

use answers::Refusal;
use registers::{ENTRY, HEADER};
use std::io;
use texts::MOST_LINES;

/// The bytes of the largest register that is taken.
const MOST_BYTES: usize = HEADER + ENTRY * MOST_LINES;

/// One byte more is read, so that more bytes are told from the largest register.
// A fixed buffer: a Vec could run out of memory, an end that no input has now.
fn main(rt: HostRuntime) -> io::Result<()> {
    let mut bytes = [0u8; MOST_BYTES + 1];
    let n = reader::read_full(&rt, &mut bytes)?;
    show(&rt, &bytes[..n])
}

/// Prints a register's lines, or why it is not shown.
#[tactic(auto, using(registers::proofs::QuestionLaws::sized_of))]
fn show(rt: &impl Print, register: &[u8]) -> io::Result<()> {
    if MOST_BYTES < register.len() {
        return printer::unreadable(rt);
    }
    if !registers::sound(register) {
        return printer::refused(rt, Refusal::Register);
    }
    printer::lines(rt, register, registers::count(register))
}
