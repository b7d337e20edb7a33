//! The first labelling: the codes of a gap in the order of the tour, each written once, in its place.
ghost use Rattle.std.specs.Prelude.{◌≡◌, [], ◌+◌, ◌*◌, ◌≤◌, length, Ok};
ghost use Rattle.digits.specs.Thirds.{thirds};
ghost use Rattle.registers.specs.Layout.{entry_place};
ghost use Rattle.tables.specs.Rules.{checked_of};
ghost use Rattle.tables.specs.Walk.{at_start, walked};

use crate::{ROW, Row, row_at};
use codes::Code;
use registers::{DEEPEST, Name};

/// One level for each depth.
const LEVELS: usize = DEEPEST as usize + 1;

/// The table that is read and the register that is written, the open entry of each level, the next row, and the number of open
/// entries.
#[derive(Drop)]
struct Walk<'a> {
    table: &'a [u32],
    register: &'a mut [u8],
    path: [usize; LEVELS],
    row: usize,
    level: usize,
}

// `Ready` and `Same` stand in clauses, not in the type: of a struct with a model that holds a `&mut`, the register's owner learns no byte at the
// end, and `first_codes` promises every byte (tried: its clause `bytes` stays open).
impl<'a> Walk<'a> {
    ghost use Rattle.std.specs.Prelude.{true, ◌<◌};
    ghost use Rattle.digits.specs.Lists.{All};
    ghost use Rattle.codes.specs.Code.{IsCode};
    ghost use Rattle.codes.specs.Spread.{digits_of, Short};
    ghost use Rattle.registers.specs.Layout.{HasPlace};
    ghost use Rattle.tables.specs.Table.{most_rows};
    ghost use Rattle.tables.specs.Walk.{row_count, is_start, parent_written, entered, left as ended, stepped, Ready};
    ghost use Rattle.tables.specs.Walker.{walk_of, Same};

    /// Writes the codes of a gap along the tour. Each of its three parts is coded in the same way, and each is narrower.
    // Left and right stay two arguments: each part has a side of its gap and a cut, so a struct would be made anew at each call.
    // The recursion stays: the rule of first codes cuts a gap by two codes, and each part in the same way.
    #[tactic(auto, using(crate::proofs::GapLaws::gaps))]
    fn gap(&mut self, left: &Code, right: &Code, width: usize)
        requires ready { Ready self.old.table.now (walk_of self.old) }
        requires left { Short left.now }
        requires right { Short right.now }
        requires width { width ≤ 2 * most_rows + 1 }
        requires codes { All IsCode (thirds (digits_of left.now) (digits_of right.now) width) }
        ensures walked { walk_of self.new
            ≡ walked self.old.table.now (thirds (digits_of left.now) (digits_of right.now) width) (walk_of self.old) }
        ensures ready { Ready self.new.table.now (walk_of self.new) }
        ensures same { Same self.old self.new }
    {
        if width < 2 {
            return;
        }
        if width == 2 {
            self.place(&codes::step(left, right));
            return;
        }
        let first = (width + 1) / 3;
        let second = (2 * width + 1) / 3;
        let lower = codes::lower_cut(left, right);
        let upper = codes::upper_cut(left, right);
        self.gap(left, &lower, first);
        self.place(&lower);
        self.gap(&lower, &upper, second - first);
        self.place(&upper);
        self.gap(&upper, right, width - second);
    }

    /// Writes one code: the start of the next row's entry, or the end of the innermost open one.
    fn place(&mut self, code: &Code)
        requires ready { Ready self.old.table.now (walk_of self.old) }
        requires code { IsCode (digits_of code.now) }
        ensures stepped { walk_of self.new ≡ stepped self.old.table.now (digits_of code.now) (walk_of self.old) }
        ensures ready { Ready self.new.table.now (walk_of self.new) }
        ensures same { Same self.old self.new }
    {
        if self.starts_here() {
            self.enter(code);
        } else if self.level > 0 {
            self.leave(code);
        }
    }

    /// The next row's depth is the number of open entries.
    #[inline(always)]
    fn starts_here(&self) -> bool
        requires most { row_count self.now.table.now ≤ most_rows }
        ensures starts { result ≡ is_start self.now.table.now self.now.row self.now.level }
    {
        self.row < self.table.len() / ROW
            && row_at(self.table, self.row).depth as usize == self.level
    }

    /// Begins the next row's entry.
    #[tactic(auto, using(crate::proofs::WalkLaws::starts_row))]
    fn enter(&mut self, start: &Code)
        requires ready { Ready self.old.table.now (walk_of self.old) }
        requires starts { is_start self.old.table.now self.old.row self.old.level ≡ true }
        requires code { IsCode (digits_of start.now) }
        ensures entered { walk_of self.new ≡ entered self.old.table.now (digits_of start.now) (walk_of self.old) }
        ensures same { Same self.old self.new }
    {
        let row = row_at(self.table, self.row);
        self.write_parent();
        let name = Name {
            identity: row.identity,
            tag: row.tag,
        };
        registers::begin(self.register, self.row, name, start);
        self.path[self.level] = self.row;
        self.row += 1;
        self.level += 1;
    }

    /// Leaves the parent start of an entry that begins here.
    #[inline(always)]
    fn write_parent(&mut self)
        requires ready { Ready self.old.table.now (walk_of self.old) }
        requires inside { self.old.row < row_count self.old.table.now }
        ensures written { walk_of self.new ≡ parent_written (walk_of self.old) }
        ensures place { HasPlace self.new.register.now self.new.row }
        ensures same { Same self.old self.new }
    {
        if self.level == 0 {
            registers::clear_parent(self.register, self.row);
        } else {
            registers::copy_parent(self.register, self.row, self.path[self.level - 1]);
        }
    }

    /// Ends the innermost open entry.
    fn leave(&mut self, end: &Code)
        requires ready { Ready self.old.table.now (walk_of self.old) }
        requires some { 0 < self.old.level }
        requires code { IsCode (digits_of end.now) }
        ensures ended { walk_of self.new ≡ ended (digits_of end.now) (walk_of self.old) }
        ensures same { Same self.old self.new }
    {
        registers::write_end(self.register, self.path[self.level - 1], end);
        self.level -= 1;
    }
}

/// Writes the entries of a table's n rows, with first codes along their tour.
#[tactic(auto, using(crate::proofs::LabelLaws::starts))]
pub(crate) fn first_codes(table: &[u32], register: &mut [u8], n: usize)
    requires accepted { checked_of table.now ≡ Ok n }
    requires room { entry_place n ≤ length register.old }
    ensures bytes { register.new ≡ (walked table.now (thirds [] [] (2 * n + 1)) (at_start register.old)).bytes }
{
    let mut walk = Walk {
        table,
        register,
        path: [0; LEVELS],
        row: 0,
        level: 0,
    };
    walk.gap(&Code::open(), &Code::open(), 2 * n + 1);
}
