//! Questions on two labels: order, above, parent, sibling.
#![tactic(auto)]

ghost use Rattle.std.specs.Prelude.{◌≡◌, true, false, ◌+◌, ◌≤◌, length, MatchResult};
ghost use Rattle.answers.specs.declared.Refusal.{Refusal};
ghost use Rattle.codes.specs.Code.{field_size};
ghost use Rattle.labels.specs.Label.{field_at, label_of, are_sound, is_sound};
ghost use Rattle.labels.specs.Questions.{order as order_of, is_above, is_parent, is_sibling};
ghost use Rattle.labels.specs.Questions.{order_result, above_result, parent_result, sibling_result};

use answers::Refusal;
use codes::{Code, Field, below, compare, holds_code, is_empty, same};
use std::marker::Model;

/// Where a label's start begins.
pub const START: usize = 0;

/// Where its end begins.
pub const END: usize = START + Code::FIELD;

/// Where its parent start begins.
pub const PARENT: usize = END + Code::FIELD;

/// How many bytes it has.
pub const LABEL: usize = PARENT + Code::FIELD;

/// A sound label where it lies: its three fields. To contracts it is its three codes.
#[derive(Drop)]
pub struct Label<'a> {
    start: &'a Field,
    end: &'a Field,
    parent: &'a Field,
}

impl<'a> Model for Label<'a> {
    ghost use Rattle.std.specs.Prelude.{◌≡◌, true};
    ghost use Rattle.codes.specs.Reading.{read};
    ghost use Rattle.labels.specs.Label.{Label as Codes, label_by, is_sound_as};

    ghost Value = { Codes };

    ghost view = { λ l. label_by l.start.now l.end.now l.parent.now };

    ghost invariant = { λ l. is_sound_as (read l.start.now) (read l.end.now) (read l.parent.now) ≡ true };
}

impl<'a> Label<'a> {
    /// A label's three fields, where they are sound. Refuses 11.
    #[inline(always)]
    #[tactic(auto, using(crate::proofs::LabelLaws::soundness))]
    pub fn read(bytes: &'a [u8]) -> Result<Self, Refusal>
        ensures sound { MatchResult result (λ label. (is_sound bytes.now ≡ true) × (label ≡ label_of bytes.now))
            (λ refusal. (is_sound bytes.now ≡ false) × (refusal ≡ Refusal.Label)) }
    {
        if bytes.len() != LABEL {
            return Err(Refusal::Label);
        }
        let start = field(bytes, START);
        let end = field(bytes, END);
        let parent = field(bytes, PARENT);
        if are_sound(start, end, parent) {
            return Ok(Label { start, end, parent });
        }
        Err(Refusal::Label)
    }

    /// Minus one, zero or plus one by start.
    // Order stays a small signed number: the host program gets it so.
    #[inline(always)]
    pub fn order(&self, other: &Self) -> i32
        ensures order { result ≡ order_of self.now other.now }
    {
        compare(self.start, other.start)
    }

    /// Whether it is an ancestor of the other.
    #[inline(always)]
    pub fn is_above(&self, other: &Self) -> bool
        ensures above { result ≡ is_above self.now other.now }
    {
        below(self.start, other.start) && below(other.end, self.end)
    }

    /// Whether it is the parent of the other. An equal parent start is not empty, since a start never is.
    #[inline(always)]
    pub fn is_parent(&self, other: &Self) -> bool
        ensures parent { result ≡ is_parent self.now other.now }
    {
        same(other.parent, self.start)
    }

    /// Whether the two are children of one parent. An empty field begins with a zero byte, and no other does.
    #[inline(always)]
    pub fn is_sibling(&self, other: &Self) -> bool
        ensures sibling { result ≡ is_sibling self.now other.now }
    {
        (self.parent[0] != 0) & (same(self.parent, other.parent) & !same(self.start, other.start))
    }
}

/// Minus one, zero or plus one by start. Refuses 11.
#[inline(always)]
pub fn order(u: &[u8], v: &[u8]) -> Result<i32, Refusal>
    ensures answer { result ≡ order_result u.now v.now }
{
    Ok(Label::read(u)?.order(&Label::read(v)?))
}

/// Whether u is an ancestor of v. Refuses 11.
#[inline(always)]
pub fn above(u: &[u8], v: &[u8]) -> Result<bool, Refusal>
    ensures answer { result ≡ above_result u.now v.now }
{
    Ok(Label::read(u)?.is_above(&Label::read(v)?))
}

/// Whether u is the parent of v. Refuses 11.
#[inline(always)]
pub fn parent(u: &[u8], v: &[u8]) -> Result<bool, Refusal>
    ensures answer { result ≡ parent_result u.now v.now }
{
    Ok(Label::read(u)?.is_parent(&Label::read(v)?))
}

/// Whether u and v are two children of one parent. Refuses 11.
#[inline(always)]
pub fn sibling(u: &[u8], v: &[u8]) -> Result<bool, Refusal>
    ensures answer { result ≡ sibling_result u.now v.now }
{
    Ok(Label::read(u)?.is_sibling(&Label::read(v)?))
}

/// Whether a label is sound.
#[inline(always)]
pub fn sound(label: &[u8]) -> bool
    ensures sound { result ≡ is_sound label.now }
{
    Label::read(label).is_ok()
}

/// The field of a label that begins at a place.
#[inline(always)]
pub fn field(label: &[u8], at: usize) -> &Field
    requires inside { at + field_size ≤ length label.now }
    ensures part { result.now ≡ field_at at label.now }
{
    <&Field>::try_from(&label[at..at + Code::FIELD]).unwrap()
}

// Start and end are codes, start below end, and the parent start is empty or a code below start.
#[inline(always)]
fn are_sound(start: &Field, end: &Field, parent: &Field) -> bool
    ensures { result ≡ are_sound start.now end.now parent.now }
{
    holds_code(start)
        && holds_code(end)
        && below(start, end)
        && if holds_code(parent) {
            below(parent, start)
        } else {
            is_empty(parent)
        }
}
