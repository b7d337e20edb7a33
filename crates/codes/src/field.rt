//! A lent field, read and compared where it lies, without spreading it out.
ghost use Rattle.std.specs.Prelude.{◌≡◌, ◌*◌, ◌<◌};
ghost use Rattle.digits.specs.Order.{is_below, order_by};
ghost use Rattle.codes.specs.Reading.{read, is_code_held, is_empty_held, is_same};
ghost use Rattle.codes.specs.Words.{word_at, blanks as blanks_of, full, ended, is_packed, last_two as last_two_of, sign_of};

use crate::spread::Code;

/// A packed field.
// Compared by words as they are needed: std's comparison of arrays is no memcmp, and took 1.6 to 3.3 times plain Rust in a trial.
pub type Field = [u8; Code::FIELD];

// A 1 in each of a word's 32 digits.
const ONES: u64 = 0x5555_5555_5555_5555;

// What a word weighs that stands before another.
const WORD: u128 = 0x1_0000_0000_0000_0000;

// The k-th eight bytes as one number, the first the highest.
#[inline(always)]
fn word(field: &Field, k: usize) -> u64
    requires { k < 4 }
    ensures { result ≡ word_at field.now (8 * k) }
{
    u64::from_be_bytes(<[u8; 8]>::try_from(&field[8 * k..8 * k + 8]).unwrap())
}

// A 3 in the place of each of a word's 32 digits that is zero.
#[inline(always)]
#[tactic(auto, using(crate::proofs::DigitLaws::blank))]
fn blanks(word: u64) -> u64
    ensures { result ≡ blanks_of 32 word }
{
    (ONES - ((word | (word >> 1)) & ONES)).wrapping_mul(3)
}

// None of a word's digits is zero.
#[inline(always)]
#[tactic(auto, using(crate::proofs::DigitLaws::full_mask))]
fn is_full(word: u64) -> bool
    ensures { result ≡ full 32 word }
{
    (word | (word >> 1)) & ONES == ONES
}

// A code ends in a word: those of its digits that are zero are the lowest, and the one above them is 2 or 3.
#[inline(always)]
#[tactic(auto, using(crate::proofs::DigitLaws::end_mask))]
fn has_end(word: u64) -> bool
    ensures { result ≡ ended 32 word }
{
    let zeros = blanks(word);
    let last = zeros.wrapping_add(1);
    (zeros & last == 0) & ((word >> 1) & last != 0)
}

// Four words are a packed code. The branches are on its length alone, which mostly repeats.
#[inline(always)]
fn packed(a: u64, b: u64, c: u64, d: u64) -> bool
    ensures { result ≡ is_packed a b c d }
{
    if d != 0 {
        return (d % 4 == 0) & (has_end(d) & (is_full(c) & (is_full(b) & is_full(a))));
    }
    if c != 0 {
        return has_end(c) & (is_full(b) & is_full(a));
    }
    if b != 0 {
        return has_end(b) & is_full(a);
    }
    has_end(a)
}

// The field's words are a packed code.
#[inline(always)]
fn is_code(field: &Field) -> bool
    ensures { result ≡ is_code_held (read field.now) }
{
    packed(
        word(field, 0),
        word(field, 1),
        word(field, 2),
        word(field, 3),
    )
}

// The field's words are zero.
#[inline(always)]
fn is_zero(field: &Field) -> bool
    ensures { result ≡ is_empty_held (read field.now) }
{
    (word(field, 0) == 0)
        & ((word(field, 1) == 0) & ((word(field, 2) == 0) & (word(field, 3) == 0)))
}

/// A field holds a code. One of another size than 32 bytes holds none.
#[inline(always)]
#[tactic(auto, using(crate::proofs::ReadingLaws::no_code_size))]
pub fn holds_code(field: &[u8]) -> bool
    ensures code { result ≡ is_code_held (read field.now) }
{
    let Ok(field) = <&Field>::try_from(field) else {
        return false;
    };
    is_code(field)
}

/// A field is empty. One of another size than 32 bytes is not.
#[inline(always)]
#[tactic(auto, using(crate::proofs::ReadingLaws::not_empty_size))]
pub fn is_empty(field: &[u8]) -> bool
    ensures empty { result ≡ is_empty_held (read field.now) }
{
    let Ok(field) = <&Field>::try_from(field) else {
        return false;
    };
    is_zero(field)
}

// The last two words as one number.
#[inline(always)]
fn last_two(field: &Field) -> u128
    ensures { result ≡ last_two_of field.now }
{
    u128::from(word(field, 2)) * WORD + u128::from(word(field, 3))
}

// Minus one, zero or plus one.
#[inline(always)]
fn sign(below: bool, above: bool) -> i32
    ensures { result ≡ sign_of below above }
{
    if below { -1 } else { i32::from(above) }
}

/// Minus one, zero or plus one, as the left field is below the right one, the same or above it.
// Order stays a small signed number, as the question on two labels answers it.
#[inline(always)]
pub fn compare(left: &Field, right: &Field) -> i32
    ensures order { result ≡ order_by left.now right.now }
{
    let (a, b) = (word(left, 0), word(right, 0));
    if a != b {
        return sign(a < b, b < a);
    }
    let (a, b) = (word(left, 1), word(right, 1));
    if a != b {
        return sign(a < b, b < a);
    }
    let (a, b) = (last_two(left), last_two(right));
    sign(a < b, b < a)
}

/// The left field is below the right one.
#[inline(always)]
pub fn below(left: &Field, right: &Field) -> bool
    ensures order { result ≡ is_below left.now right.now }
{
    compare(left, right) < 0
}

/// The two fields are the same to the last byte.
#[inline(always)]
pub fn same(left: &Field, right: &Field) -> bool
    ensures same { result ≡ is_same left.now right.now }
{
    (word(left, 0) == word(right, 0))
        & ((word(left, 1) == word(right, 1))
            & ((word(left, 2) == word(right, 2)) & (word(left, 3) == word(right, 3))))
}
