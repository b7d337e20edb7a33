//! Tables: their rules, and the first labelling of their rows.
#![tactic(auto)]

ghost use Rattle.std.specs.Prelude.{◌≡◌, ◌*◌, ◌≤◌, length};
ghost use Rattle.tables.specs.Table.{most_rows, row_size, rows_of};
ghost use Rattle.tables.specs.Rules.{is_depth, rows_checked, checked_of};
ghost use Rattle.tables.specs.Labelling.{label_outcome};
ghost use Rattle.tables.specs.Rows.{HasRow, row_at, is_depth_at};

mod walk;

use answers::Refusal;
use identities::Used;
use registers::{DEEPEST, MOST};

/// The numbers of a row: identity, tag, depth.
pub const ROW: usize = 3;

/// The same, read.
#[derive(Clone, Copy)]
struct Row {
    identity: u32,
    tag: u32,
    depth: u32,
}

/// Writes the register of a table, with first codes, and answers its bytes. Refuses a table of a wrong size, the first row whose
/// depth or identity breaks the rules, and a buffer that is too short.
#[tactic(auto, unfolding(crate::specs::Labelling::label_outcome), using(crate::proofs::LabelLaws::outcomes))]
pub fn label(table: &[u32], register: &mut [u8]) -> Result<usize, Refusal>
    ensures answer { result ≡ (label_outcome table.now register.old).answer }
    ensures bytes { register.new ≡ (label_outcome table.now register.old).bytes }
{
    let n = check(table)?;
    let size = registers::entry_place(n);
    if register.len() < size {
        return Err(Refusal::Room);
    }
    registers::write_header(register, n);
    walk::first_codes(table, register, n);
    Ok(size)
}

/// Goes through a table by its rules, and answers the number of its rows.
#[tactic(auto, using(crate::proofs::RuleLaws::sizes))]
fn check(table: &[u32]) -> Result<usize, Refusal>
    ensures checked { result ≡ checked_of table.now }
{
    let n = table.len() / ROW;
    if table.len() % ROW != 0 || n < 1 || MOST < n {
        return Err(Refusal::TableSize);
    }
    check_rows(table, n)
}

/// Goes through the rows from the top, in each the depth first.
// By number, not by chunks: both rules ask for rows above row i.
#[tactic(auto, using(crate::proofs::RuleLaws::rows))]
fn check_rows(table: &[u32], n: usize) -> Result<usize, Refusal>
    requires whole { (length table.now ≡ row_size * n) × (n ≤ most_rows) }
    ensures checked { result ≡ rows_checked (rows_of table.now) }
{
    let mut used = Used::new();
    for i in 0..n {
        if !row_depth(table, i) {
            return Err(Refusal::RowDepth(i));
        }
        if !used.new_at(table, ROW, i) {
            return Err(Refusal::RowIdentity(i));
        }
    }
    Ok(n)
}

/// The depth is 0 in the first row and follows the depth of the row above in a later one.
#[inline(always)]
fn row_depth(table: &[u32], i: usize) -> bool
    requires row { HasRow table.now i }
    ensures depth { result ≡ is_depth_at table.now i }
{
    let depth = row_at(table, i).depth;
    if i == 0 {
        return depth == 0;
    }
    follows(row_at(table, i - 1).depth, depth)
}

/// A later depth is at least 1, at most the previous one and 1, and at most 63.
#[inline(always)]
fn follows(previous: u32, depth: u32) -> bool
    ensures depth { result ≡ is_depth previous depth }
{
    1 <= depth && depth <= DEEPEST && depth - 1 <= previous
}

/// Row i of a table.
#[inline(always)]
fn row_at(table: &[u32], i: usize) -> Row
    requires row { HasRow table.now i }
    ensures row { result ≡ row_at table.now i }
{
    let at = ROW * i;
    Row {
        identity: table[at],
        tag: table[at + 1],
        depth: table[at + 2],
    }
}
