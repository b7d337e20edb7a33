//! What the programs print: the lines of a register, the line of a refusal, a call's answer.
#![tactic(auto)]

ghost use Rattle.std.specs.Prelude.{◌+◌, ◌≤◌, length};
ghost use Rattle.registers.specs.Layout.{entry_place, entry_size};

use answers::Refusal;
use std::io;
use std::io::Write;
use texts::{LINE, Unreadable};

/// Prints the lines of the first n entries.
// Of any register that has them, not only of a sound one: a `Sound` would ask more.
pub fn lines(rt: &impl Print, register: &[u8], n: usize) -> io::Result<()>
    requires entries { entry_place n ≤ length register.now }
{
    for i in 0..n {
        line(rt, register, i)?;
    }
    Ok(())
}

/// Prints the line of entry i.
// The buffer and its length stay, here and in `refused`: `texts::line` and `texts::refused` promise what they leave in a lent buffer.
// Two functions: one over a closure would need a clause on the closure's length and be no shorter.
fn line(rt: &impl Print, register: &[u8], i: usize) -> io::Result<()>
    requires entry { entry_place i + entry_size ≤ length register.now }
{
    let mut out = [0u8; LINE];
    let n = texts::line(register, i, &mut out);
    text(rt, &out[..n])
}

/// Prints the line of a refusal.
pub fn refused(rt: &impl Print, refusal: Refusal) -> io::Result<()> {
    let mut out = [0u8; LINE];
    let n = texts::refused(refusal, &mut out);
    text(rt, &out[..n])
}

/// Prints that what was read is no text of a table or no register of a size that is taken.
pub fn unreadable(rt: &impl Print) -> io::Result<()> {
    println!(rt; "{}", Unreadable)
}

/// Prints a call's answer: its number, or `refused` and the refusal's number.
pub fn answered(rt: &impl Print, answer: Result<usize, Refusal>) -> io::Result<()> {
    match answer {
        Ok(n) => print!(rt; " {n};"),
        Err(refusal) => print!(rt; " {refusal};"),
    }
}

/// Prints bytes as they are.
pub fn text(rt: &impl Print, bytes: &[u8]) -> io::Result<()> {
    io::writer(rt).write_all(bytes)
}
