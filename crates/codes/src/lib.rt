//! Codes and their packed fields: packing, unpacking, and a code between two codes.
#![tactic(auto)]

ghost use Rattle.std.specs.Prelude.{◌≡◌, true, false, Ok, ◌+◌, ◌≤◌, length, MatchResult, MatchOption};
ghost use Rattle.std.specs.List.{list_all};
ghost use Rattle.numbers.specs.Bytes.{put};
ghost use Rattle.answers.specs.declared.Refusal.{Refusal};
ghost use Rattle.codes.specs.Code.{field_size, IsCode, is_code, is_digit};
ghost use Rattle.codes.specs.Field.{field_of, Slots};
ghost use Rattle.codes.specs.Reading.{read, is_code_held, is_empty_held, side_of};
ghost use Rattle.codes.specs.Spread.{digits_of, Held, Short};
ghost use Rattle.codes.specs.Calls.{pack_outcome, unpack_outcome, sides_of, between_outcome};

mod field;
mod packer;
mod spread;

use answers::Refusal;
pub use field::{Field, below, compare, holds_code, is_empty, same};
pub use packer::{Packer, byte_after};
pub use spread::{Code, lower_cut, step, upper_cut};

// Associated functions without self, beside the constants of `Code`: that form stays by a rule of the project.
impl Code {
    /// Packs digits into a lent field and answers their number. Refuses 12, 4.
    pub fn pack(digits: &[u8], field: &mut [u8]) -> Result<usize, Refusal>
        ensures answer { result ≡ (pack_outcome digits.now field.old).answer }
        ensures bytes { field.new ≡ (pack_outcome digits.now field.old).bytes }
    {
        if !is_code(digits) {
            return Err(Refusal::NoCode);
        }
        if field.len() < Code::FIELD {
            return Err(Refusal::Room);
        }
        write_field(field, digits);
        Ok(digits.len())
    }

    /// Unpacks a field into lent digits and answers their number. Refuses 12, 4.
    #[tactic(auto, using(crate::proofs::ReadingLaws::code_size))]
    pub fn unpack(field: &[u8], digits: &mut [u8]) -> Result<usize, Refusal>
        ensures answer { result ≡ (unpack_outcome field.now digits.old).answer }
        ensures bytes { digits.new ≡ (unpack_outcome field.now digits.old).bytes }
    {
        if holds_code(field) {
            return unpack_code(whole(field), digits);
        }
        Err(Refusal::NoCode)
    }

    /// Writes the field of the one code between two sides and answers its number of digits. Refuses 12, 13, 4, 8.
    pub fn between(left: &[u8], right: &[u8], field: &mut [u8]) -> Result<usize, Refusal>
        ensures answer { result ≡ (between_outcome left.now right.now field.old).answer }
        ensures bytes { field.new ≡ (between_outcome left.now right.now field.old).bytes }
    {
        sides(left, right)?;
        between_sides(whole(left), whole(right), field)
    }
}

// The bytes as a field.
#[inline(always)]
fn whole(bytes: &[u8]) -> &Field
    requires whole { length bytes.now ≡ field_size }
    ensures same { result.now ≡ bytes.now }
{
    <&Field>::try_from(bytes).unwrap()
}

// Unpacking of a field that holds a code.
#[inline(always)]
fn unpack_code(field: &Field, digits: &mut [u8]) -> Result<usize, Refusal>
    requires held { is_code_held (read field.now) ≡ true }
    ensures answer { result ≡ (unpack_outcome field.now digits.old).answer }
    ensures bytes { digits.new ≡ (unpack_outcome field.now digits.old).bytes }
{
    let code = spread::of_field(field);
    let n = code.count;
    if digits.len() < n {
        return Err(Refusal::Room);
    }
    digits[..n].copy_from_slice(&code.digits[..n]);
    Ok(n)
}

// The step between two sides that are in order.
#[inline(always)]
fn between_sides(left: &Field, right: &Field, field: &mut [u8]) -> Result<usize, Refusal>
    requires ordered { sides_of (read left.now) (read right.now) ≡ Ok tt }
    ensures answer { result ≡ (between_outcome left.now right.now field.old).answer }
    ensures bytes { field.new ≡ (between_outcome left.now right.now field.old).bytes }
{
    if field.len() < Code::FIELD {
        return Err(Refusal::Room);
    }
    let made = spread::step(&spread::of_field(left), &spread::of_field(right));
    let n = made.count;
    if Code::LONGEST < n {
        return Err(Refusal::CodeLength);
    }
    write_field(field, &made.digits[..n]);
    Ok(n)
}

/// The code that a field holds, spread out.
pub fn code_of(field: &Field) -> Code
    requires held { is_code_held (read field.now) ≡ true }
    ensures held { Held result (side_of (read field.now)) }
    ensures short { Short result }
{
    spread::of_field(field)
}

// A side of a gap: a field that holds a code, or none where it is open. Refuses 12.
#[inline(always)]
#[tactic(auto, using(crate::proofs::ReadingLaws::sizes))]
fn side(field: &[u8]) -> Result<Option<&Field>, Refusal>
    ensures side { MatchResult result
        (λ side. MatchOption side (is_empty_held (read field.now) ≡ true)
        (λ code. (code.now ≡ field.now) × (is_code_held (read field.now) ≡ true)))
        (λ refusal. (refusal ≡ Refusal.NoCode) × ((is_code_held (read field.now) ≡ false) × (is_empty_held (read field.now) ≡ false))) }
{
    if holds_code(field) {
        return Ok(Some(whole(field)));
    }
    if is_empty(field) {
        return Ok(None);
    }
    Err(Refusal::NoCode)
}

// Whether two fields are the sides of a gap: two codes in order, or one of them or both open. Refuses 12, 13.
#[inline(always)]
fn sides(left: &[u8], right: &[u8]) -> Result<(), Refusal>
    ensures sides { result ≡ sides_of (read left.now) (read right.now) }
{
    match (side(left)?, side(right)?) {
        (Some(left), Some(right)) if !below(left, right) => Err(Refusal::Order),
        _ => Ok(()),
    }
}

// Packs some digits into a field.
// In place: a field made aside and then copied took 1.4 times as long for a few digits.
#[inline(always)]
fn pack_into(field: &mut [u8], digits: &[u8])
    requires whole { length field.old ≡ field_size }
    requires slots { Slots digits.now }
    ensures field { field.new ≡ field_of digits.now }
{
    field.fill(0);
    let mut packer = Packer::new();
    for (i, digit) in digits.iter().enumerate() {
        packer = packer.push(*digit);
        field[i / 4] = packer.pending;
    }
}

// Writes the field of some digits over the first bytes of a buffer.
#[inline(always)]
fn write_field(field: &mut [u8], digits: &[u8])
    requires room { field_size ≤ length field.old }
    requires slots { Slots digits.now }
    ensures bytes { field.new ≡ put field.old 0 (field_of digits.now) }
{
    pack_into(&mut field[..Code::FIELD], digits);
}

/// Writes the field of a code that was made over the bytes from a place on.
#[inline(always)]
pub fn write_code(buffer: &mut [u8], at: usize, code: &Code)
    requires room { at + field_size ≤ length buffer.old }
    requires code { IsCode (digits_of code.now) }
    ensures bytes { buffer.new ≡ put buffer.old at (field_of (digits_of code.now)) }
{
    pack_into(
        &mut buffer[at..at + Code::FIELD],
        &code.digits[..code.count],
    );
}

// Whether the digits are those of a code.
#[inline(always)]
#[tactic(auto, using(crate::proofs::TestLaws::code_tests))]
fn is_code(digits: &[u8]) -> bool
    ensures code { result ≡ is_code digits.now }
{
    let Some((last, rest)) = digits.split_last() else {
        return false;
    };
    if Code::LONGEST < digits.len() {
        return false;
    }
    are_digits(rest) & ((1 < *last) & (*last < 4))
}

// Each of the digits is 1, 2 or 3. All are looked at, with no branch on one: that is faster than to stop at the first that is none.
#[inline(always)]
fn are_digits(digits: &[u8]) -> bool
    ensures { result ≡ list_all is_digit digits.now }
{
    let mut all = true;
    for digit in digits {
        all &= (1 <= *digit) & (*digit < 4);
    }
    all
}
