//! What a call answers: a value where it is accepted, or why it is refused; and both as one signed number for C.
#![tactic(auto)]

ghost use Rattle.std.specs.Prelude.{◌≡◌, ◌^◌, ◌≤◌, ◌<◌, ℤ, pos, Some};
ghost use Rattle.answers.specs.Number.{number_of, row_of, printed};
ghost use Rattle.answers.specs.Signed.{refused_as, yes_no, with_row, signed_as, IsSignable, signed_row_of, SignableRow};

use std::error::Error;
use std::fmt;

// Above every refusal number of the host program.
const REFUSED: i32 = -100000;

// What a row counts in the answer of a call that answers rows.
const EACH_ROW: u64 = 1000000;

/// Why a call is refused; a row of a table, from 0, stands with the cases that answer one.
#[derive(Clone, Copy, Debug, PartialEq, Eq)]
pub enum Refusal {
    TableSize,
    RowDepth(usize),
    RowIdentity(usize),
    Identity,
    Room,
    Register,
    Target,
    Root,
    CodeLength,
    Children,
    Depth,
    Label,
    NoCode,
    Order,
}

impl Refusal {
    /// Its number for the host program.
    // No `From`: it would be the same `match`, and these two have clauses that callers cite.
    #[inline(always)]
    pub fn number(self) -> u32
        ensures number { result ≡ number_of self }
        ensures small { result ≤ 13 }
    {
        match self {
            Refusal::TableSize => 1,
            Refusal::RowDepth(_) => 2,
            Refusal::RowIdentity(_) | Refusal::Identity => 3,
            Refusal::Room => 4,
            Refusal::Register => 5,
            Refusal::Target => 6,
            Refusal::Root => 7,
            Refusal::CodeLength => 8,
            Refusal::Children => 9,
            Refusal::Depth => 10,
            Refusal::Label => 11,
            Refusal::NoCode => 12,
            Refusal::Order => 13,
        }
    }

    /// The same as C gets it: -(100,000 + the number).
    #[inline(always)]
    pub fn signed(self) -> i32
        ensures signed { result ≡ refused_as (number_of self) }
    {
        REFUSED - self.number() as i32
    }

    /// The same with the row: -(100,000 + the number + 1,000,000 times the row).
    #[inline(always)]
    pub fn signed_row(self) -> i64
        requires small { row_of self < 2 ^ 32 }
        ensures signed { result ≡ refused_as (with_row self) }
    {
        let number = u64::from(self.number()) + EACH_ROW * self.row() as u64;
        i64::from(REFUSED) - number as i64
    }

    /// The row that is answered with it, from 0; 0 where none is.
    #[inline(always)]
    pub fn row(self) -> usize
        ensures row { result ≡ row_of self }
    {
        match self {
            Refusal::RowDepth(row) | Refusal::RowIdentity(row) => row,
            _ => 0,
        }
    }
}

/// As the programs print it: `refused` and the number.
impl fmt::Display for Refusal {
    ghost output = { λ refusal. Some (printed refusal) };

    fn fmt<W: fmt::Write>(&self, f: &mut fmt::Formatter<W>) -> fmt::Result {
        write!(f, "refused {}", self.number())
    }
}

impl Error for Refusal {}

/// What C gets as a signed number of 32 bits.
pub trait Signed: Copy {
    ghost number: { Self → ℤ };

    ghost Fits: { Self → Type 0 };

    fn signed(self) -> i32
        requires small { Fits self }
        ensures signed { result ≡ number self };
}

/// A count or a place as it is.
impl Signed for usize {
    ghost number = { pos };

    ghost Fits = { λ n. n < 2 ^ 31 };

    #[inline(always)]
    fn signed(self) -> i32 {
        self as i32
    }
}

/// A signed number as it is.
impl Signed for i32 {
    ghost number = { λ z. z };

    ghost Fits = { λ _. Unit {0} };

    #[inline(always)]
    fn signed(self) -> i32 {
        self
    }
}

/// Yes is 1, no is 0.
impl Signed for bool {
    ghost number = { yes_no };

    ghost Fits = { λ _. Unit {0} };

    #[inline(always)]
    fn signed(self) -> i32 {
        i32::from(self)
    }
}

/// What is accepted as its number, a refusal as -(100,000 + its number).
impl<T: Signed> Signed for Result<T, Refusal> {
    ghost number = { signed_as T.number };

    ghost Fits = { IsSignable T.Fits };

    #[inline(always)]
    fn signed(self) -> i32 {
        match self {
            Ok(value) => value.signed(),
            Err(refusal) => refusal.signed(),
        }
    }
}

/// The same for a call that answers rows, in 64 bits.
#[inline(always)]
pub fn signed_row(answer: Result<usize, Refusal>) -> i64
    requires small { SignableRow answer }
    ensures signed { result ≡ signed_row_of answer }
{
    match answer {
        Ok(n) => n as i64,
        Err(refusal) => refusal.signed_row(),
    }
}
