//! A code spread out as digits, by value, and the step between two such codes.
ghost use Rattle.std.specs.Prelude.{◌≡◌, ◌∷◌, [], ◌++◌, ◌+◌, ◌*◌, ◌<◌, ◌≤◌, length, get_or};
ghost use Rattle.digits.specs.Between.{between, remade};
ghost use Rattle.digits.specs.Thirds.{first, second};
ghost use Rattle.codes.specs.Field.{spread, lead};
ghost use Rattle.codes.specs.Spread.{digits_of, made_of, cut_by, Held, Short, Fit};

use crate::field::Field;

/// The first count of the digits; the rest counts for nothing. There is room for one more than a code may have.
// Nothing compares or prints it as it lies.
// The array with its count stays: no heap, fixed memory. `Short` and `Fit` stay clauses, and no invariant: the step may make 128
// digits, which `Code::between` then refuses, so that a type of at most 127 would need a second one beside it.
#[derive(Clone, Copy)]
pub struct Code {
    pub(crate) digits: [u8; Code::LONGEST + 1],
    pub(crate) count: usize,
}

impl Code {
    /// The largest number of digits.
    pub const LONGEST: usize = 127;

    /// The bytes of a packed field.
    pub const FIELD: usize = 32;

    /// No digits: an open side.
    // No `Option<Code>`: the definitions say the empty list for an open side, so the step has no case of its own for it.
    #[inline(always)]
    pub fn open() -> Self
        ensures held { Held result [] }
    {
        Code {
            digits: [0; Code::LONGEST + 1],
            count: 0,
        }
    }

    /// The number of digits.
    #[inline(always)]
    pub fn len(self) -> usize
        ensures len { result ≡ self.count }
    {
        self.count
    }

    // Digits put behind its own.
    #[inline(always)]
    fn extend(&mut self, behind: &[u8])
        requires room { self.old.count + length behind.now ≤ 128 }
        ensures held { Held self.new (digits_of self.old ++ behind.now) }
    {
        let n = self.count;
        let end = n + behind.len();
        self.digits[n..end].copy_from_slice(behind);
        self.count = end;
    }

    // The last digit, where it is a 2, made the digits `two`, and else the digits `three`.
    #[inline(always)]
    fn remake(&mut self, two: &[u8], three: &[u8])
        requires code { Fit self.old }
        requires few { (length two.now ≤ 2) × (length three.now ≤ 2) }
        ensures held { Held self.new (remade (made_of two.now three.now) (digits_of self.old)) }
    {
        self.count -= 1;
        if self.digits[self.count] == 2 {
            self.extend(two);
        } else {
            self.extend(three);
        }
    }
}

/// The one code between two sides; a side with no digits is open.
// Left and right stay two arguments: two codes that lie where they are lent; a struct of both would be made anew at each cut.
#[inline(always)]
pub fn step(left: &Code, right: &Code) -> Code
    requires left { Short left.now }
    requires right { Short right.now }
    ensures held { Held result (between (digits_of left.now) (digits_of right.now)) }
{
    if left.count < right.count {
        let mut made = *right;
        made.remake(&[1, 2], &[2]);
        return made;
    }
    let mut made = *left;
    if right.count < left.count {
        made.remake(&[3], &[3, 2]);
    } else {
        made.extend(&[2]);
    }
    made
}

// One of the two codes that cut a gap in three: the left code with `behind` behind it, or a longer right one remade.
#[inline(always)]
fn cut(left: &Code, right: &Code, behind: &[u8], two: &[u8], three: &[u8]) -> Code
    requires left { Short left.now }
    requires right { Short right.now }
    requires few { (length behind.now ≤ 1) × ((length two.now ≤ 2) × (length three.now ≤ 2)) }
    ensures held { Held result (cut_by behind.now two.now three.now (digits_of left.now) (digits_of right.now)) }
{
    if right.count <= left.count {
        let mut made = *left;
        made.extend(behind);
        return made;
    }
    let mut made = *right;
    made.remake(two, three);
    made
}

/// The lower of the two codes that cut a gap in three.
pub fn lower_cut(left: &Code, right: &Code) -> Code
    requires left { Short left.now }
    requires right { Short right.now }
    ensures held { Held result (first (digits_of left.now) (digits_of right.now)) }
{
    cut(left, right, &[2], &[1, 2], &[2])
}

/// The upper one.
pub fn upper_cut(left: &Code, right: &Code) -> Code
    requires left { Short left.now }
    requires right { Short right.now }
    ensures held { Held result (second (digits_of left.now) (digits_of right.now)) }
{
    cut(left, right, &[3], &[1, 3], &[2, 3])
}

// The digit at place i of a field.
#[inline(always)]
fn slot(field: &[u8], i: usize) -> u8
    requires inside { i < 4 * length field.now }
    ensures digit { result ≡ get_or (spread field.now) i 0 }
{
    (field[i / 4] >> (6 - i % 4 * 2)) % 4
}

// The digits of a field up to its separator.
pub(crate) fn of_field(field: &Field) -> Code
    ensures held { Held result (lead (spread field.now)) }
{
    let mut code = Code::open();
    for i in 0..4 * Code::FIELD {
        let digit = slot(field, i);
        if digit == 0 {
            code.count = i;
            return code;
        }
        code.digits[i] = digit;
    }
    code.count = 4 * Code::FIELD;
    code
}
