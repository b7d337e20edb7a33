//! The program `label`: reads the rows of a table and prints the lines of its register.
#![tactic(auto)]

ghost use Rattle.std.specs.Prelude.{◌*◌, ◌≤◌, length};
ghost use Rattle.tables.specs.Table.{row_size};
ghost use Rattle.texts.specs.Reading.{most_lines};

use registers::{ENTRY, HEADER};
use std::io;
use tables::ROW;
use texts::{MOST_LINES, MOST_TEXT};

/// One byte more than the longest text of a table is read, so that a longer one is told from it.
// Fixed buffers here: a Vec could run out of memory, an end that no input has now.
fn main(rt: HostRuntime) -> io::Result<()> {
    let mut text = [0u8; MOST_TEXT + 1];
    let n = reader::read_full(&rt, &mut text)?;
    read(&rt, &text[..n])
}

/// Labels the table of a text.
fn read(rt: &impl Print, text: &[u8]) -> io::Result<()> {
    let mut numbers = [0u32; ROW * MOST_LINES];
    let Ok(n) = texts::read_table(text, &mut numbers) else {
        return printer::unreadable(rt);
    };
    label(rt, &numbers[..ROW * n])
}

/// Labels a table and prints the lines of its register, or the refusal.
fn label(rt: &impl Print, table: &[u32]) -> io::Result<()>
    requires few { length table.now ≤ row_size * most_lines }
{
    let mut register = [0u8; HEADER + ENTRY * MOST_LINES];
    match tables::label(table, &mut register) {
        Ok(_) => printer::lines(rt, &register, table.len() / ROW),
        Err(refusal) => printer::refused(rt, refusal),
    }
}
