//! The text of a register's entry, and the reading of a table's text.
#![tactic(auto)]

ghost use Rattle.std.specs.Prelude.{Some, ◌≡◌, true, ◌∷◌, [], ◌++◌, map, ◌+◌, ◌*◌, ◌≤◌, ◌<◌, length, IfOk, MatchOption, SomeIff};
ghost use Rattle.digits.specs.Lists.{All};
ghost use Rattle.codes.specs.Code.{field_size};
ghost use Rattle.codes.specs.Reading.{read, side_of};
ghost use Rattle.numbers.specs.Bytes.{put};
ghost use Rattle.registers.specs.Layout.{entry_place, entry_size};
ghost use Rattle.registers.specs.Entries.{code_at, entry_at};
ghost use Rattle.texts.specs.Printed.{decimal, code_text, entry_text, refusal_text, unreadable_text, digit_byte};
ghost use Rattle.answers.specs.Number.{number_of};
ghost use Rattle.texts.specs.Reading.{most_lines, longer, is_following, number, no_number, read_number, no_line, read_line, read_text};
ghost use Rattle.texts.specs.Answers.{line_of, lines_of};

use answers::Refusal;
use codes::Code;
use registers::{ENTRY, ENTRY_LABEL, HEADER, IDENTITY, TAG};
use std::error::Error;
use std::fmt;

/// The largest number of lines that are read.
pub const MOST_LINES: usize = 500;

/// The most bytes that so many lines have.
pub const MOST_TEXT: usize = 33 * MOST_LINES;

/// The most bytes of a printed line: two decimals of ten digits, three codes, a byte behind each.
pub const LINE: usize = 2 * 11 + 3 * (Code::LONGEST + 1);

/// The numbers of a line.
// `tables` has such a row of its own: it is no crate under this one.
#[derive(Clone, Copy)]
struct Row {
    identity: u32,
    tag: u32,
    depth: u32,
}

/// A text is not one of a table.
#[derive(Clone, Copy, Debug, PartialEq, Eq)]
pub struct Unreadable;

/// As the programs print it.
impl fmt::Display for Unreadable {
    ghost output = { λ _. Some unreadable_text };

    fn fmt<W: fmt::Write>(&self, f: &mut fmt::Formatter<W>) -> fmt::Result {
        write!(f, "unreadable")
    }
}

impl Error for Unreadable {}

/// Leaves the text of entry i at the front of `out` and answers its length.
// Of any register that has the entry, not only of a sound one: a `Sound` would ask more.
pub fn line(register: &[u8], i: usize, out: &mut [u8]) -> usize
    requires entry { entry_place i + entry_size ≤ length register.now }
    requires room { LINE ≤ length out.old }
    ensures text { out.new ≡ put out.old 0 (entry_text (entry_at register.now i)) }
    ensures length { result ≡ length (entry_text (entry_at register.now i)) }
    ensures fits { result ≤ LINE }
{
    // Not `entry_place(i)`: it asks for at most 4,096, which the clause `entry` does not.
    let from = HEADER + ENTRY * i;
    let label = from + ENTRY_LABEL;
    let mut line = Cursor { out, at: 0 };
    line.number(numbers::read_u32(register, from + IDENTITY), b' ');
    line.number(numbers::read_u32(register, from + TAG), b' ');
    line.code(register, label + labels::START, b' ');
    line.code(register, label + labels::END, b' ');
    line.code(register, label + labels::PARENT, b'\n');
    line.at
}

/// Leaves the line of a refusal at the front of `out` and answers its length.
pub fn refused(refusal: Refusal, out: &mut [u8]) -> usize
    requires room { LINE ≤ length out.old }
    ensures text { out.new ≡ put out.old 0 (refusal_text (number_of refusal)) }
    ensures length { result ≡ length (refusal_text (number_of refusal)) }
    ensures fits { result ≤ LINE }
{
    let mut line = Cursor { out, at: 0 };
    line.bytes(b"refused ");
    line.number(refusal.number(), b'\n');
    line.at
}

/// A lent buffer and where the next byte goes.
// How much room is asked differs with what is written, so that it stays in clauses.
// By hand, since no clause says which bytes std's `write!` leaves in a slice: the clause `text` of `line` needs them, and a String a heap.
#[derive(Drop)]
struct Cursor<'a> {
    out: &'a mut [u8],
    at: usize,
}

impl<'a> Cursor<'a> {
    ghost use Rattle.texts.specs.Cursor.{written, HasRoom, Within};

    /// Leaves a decimal and the byte behind it, 11 bytes at most.
    #[tactic(auto, using(crate::proofs::CursorLaws::cursor))]
    fn number(&mut self, x: u32, behind: u8)
        requires room { HasRoom self.old 11 }
        ensures text { self.new ≡ written self.old (decimal x ++ (behind ∷ [])) }
        ensures few { Within self.old 11 self.new }
    {
        self.decimal(x);
        self.byte(behind);
    }

    /// Leaves a decimal: all digits but the last come first.
    fn decimal(&mut self, x: u32)
        requires room { HasRoom self.old (length (decimal x)) }
        ensures text { self.new ≡ written self.old (decimal x) }
    {
        if 10 <= x {
            self.decimal(x / 10);
        }
        self.byte(b'0' + (x % 10) as u8);
    }

    /// Leaves the digits of the code whose field begins at a place, `-` where it holds none, and the byte behind: 128 at most.
    #[tactic(auto, using(crate::proofs::CursorLaws::cursor))]
    fn code(&mut self, register: &[u8], from: usize, behind: u8)
        requires field { from + field_size ≤ length register.now }
        requires room { HasRoom self.old 128 }
        ensures text { self.new ≡ written self.old (code_text (code_at register.now from) ++ (behind ∷ [])) }
        ensures few { Within self.old 128 self.new }
    {
        self.field(&register[from..from + Code::FIELD]);
        self.byte(behind);
    }

    /// Leaves the digits of the code that a field holds, or `-`.
    fn field(&mut self, field: &[u8])
        requires room { HasRoom self.old (length (code_text (side_of (read field.now)))) }
        ensures text { self.new ≡ written self.old (code_text (side_of (read field.now))) }
    {
        let mut digits = [0u8; Code::LONGEST];
        match Code::unpack(field, &mut digits) {
            Ok(n) => self.digits(&digits[..n]),
            Err(_) => self.byte(b'-'),
        }
    }

    /// Leaves digits as text.
    #[tactic(auto, using(crate::proofs::CursorLaws::cursor))]
    fn digits(&mut self, digits: &[u8])
        requires room { HasRoom self.old (length digits.now) }
        requires small { All (λ d. d < 4) digits.now }
        ensures text { self.new ≡ written self.old (map digit_byte digits.now) }
    {
        for &d in digits {
            self.byte(b'0' + d);
        }
    }

    /// Leaves a run of bytes.
    #[tactic(auto, using(crate::proofs::CursorLaws::cursor))]
    #[inline(always)]
    fn bytes(&mut self, text: &[u8])
        requires room { HasRoom self.old (length text.now) }
        ensures text { self.new ≡ written self.old text.now }
        ensures few { Within self.old (length text.now) self.new }
    {
        self.out[self.at..self.at + text.len()].copy_from_slice(text);
        self.at += text.len();
    }

    /// Leaves one byte.
    #[tactic(auto, using(crate::proofs::CursorLaws::cursor))]
    #[inline(always)]
    fn byte(&mut self, b: u8)
        requires room { HasRoom self.old 1 }
        ensures text { self.new ≡ written self.old (b ∷ []) }
    {
        self.out[self.at] = b;
        self.at += 1;
    }
}

/// Reads the text of a table into the front of `table`: the numbers of every line before the first that is unreadable. Answers the
/// number of rows.
#[tactic(auto, using(crate::proofs::TableLaws::reached))]
pub fn read_table(text: &[u8], table: &mut [u32]) -> Result<usize, Unreadable>
    requires room { 3 * most_lines ≤ length table.old }
    ensures lines { result ≡ lines_of (read_text text.now) }
    ensures few { IfOk result (λ n. n ≤ most_lines) }
    ensures numbers { table.new ≡ put table.old 0 (read_text text.now).numbers }
{
    let mut rest = text;
    let mut n = 0;
    // No `for`: the end of the text decides, and `n` is the answer; with a `for` up to the most lines both would be asked twice.
    while !rest.is_empty() {
        if n == MOST_LINES {
            return Err(Unreadable);
        }
        let (row, behind) = read_row(rest).ok_or(Unreadable)?;
        table[3 * n..3 * n + 3].copy_from_slice(&[row.identity, row.tag, row.depth]);
        rest = behind;
        n += 1;
    }
    Ok(n)
}

/// The numbers of the line at the front of a text, and the text behind it.
#[tactic(auto, unfolding(crate::specs::Reading::read_line))]
fn read_row(text: &[u8]) -> Option<(Row, &[u8])>
    ensures row { MatchOption result (read_line text.now ≡ no_line) (λ p. read_line text.now ≡ line_of p.0 p.1.now) }
{
    let (identity, rest) = read_number(text, b' ')?;
    let (tag, rest) = read_number(rest, b' ')?;
    let (depth, rest) = read_number(rest, b'\n')?;
    let row = Row {
        identity,
        tag,
        depth,
    };
    Some((row, rest))
}

/// The decimal at the front of a text with the byte `stop` behind it, and the text behind them.
// By hand, since std's `parse` is no plainer: it takes a sign and leading zeros too, which three more tests would have to refuse.
fn read_number(text: &[u8], stop: u8) -> Option<(u32, &[u8])>
    ensures number { MatchOption result (read_number stop text.now ≡ no_number) (λ p. read_number stop text.now ≡ number p.0 p.1.now) }
{
    let (&first, mut rest) = text.split_first()?;
    if !first.is_ascii_digit() {
        return None;
    }
    let mut x = u32::from(first - b'0');
    while let Some((&b, behind)) = rest.split_first() {
        if b == stop {
            return Some((x, behind));
        }
        x = with_digit(x, b)?;
        rest = behind;
    }
    None
}

/// The number with one digit more: none follows a leading zero, and none makes more than 32 bits.
fn with_digit(x: u32, b: u8) -> Option<u32>
    ensures longer { SomeIff result (is_following x b ≡ true) (longer x b) }
{
    if x == 0 || !b.is_ascii_digit() {
        return None;
    }
    x.checked_mul(10)?.checked_add(u32::from(b - b'0'))
}
