//! A register: its layout, its soundness, the questions on it, and an entry's parts written in their places.
#![tactic(auto)]

ghost use Rattle.std.specs.Prelude.{◌≡◌, true, ◌++◌, [], ◌+◌, ◌≤◌, ◌<◌, length};
ghost use Rattle.numbers.specs.Bytes.{put, le4};
ghost use Rattle.codes.specs.Code.{IsCode};
ghost use Rattle.codes.specs.Field.{field_of};
ghost use Rattle.codes.specs.Spread.{digits_of, Held, Short};
ghost use Rattle.labels.specs.Label.{field_at, label_size};
ghost use Rattle.digits.specs.Order.{is_below};
ghost use Rattle.registers.specs.Entries.{code_at, entry_bytes};
ghost use Rattle.registers.specs.Sound.{line_at, CodeAt};
ghost use Rattle.registers.specs.Questions.{count_of, lines_of, is_sized, is_register_sound, found_in, depth_in, place_answer, depth_result, distance_result};
ghost use Rattle.registers.specs.Layout.{most_entries, count_at, header_size, label_at, entry_place, start_place, end_place, parent_place, HasPlace};

mod entry;
mod reading;
mod walk;

use answers::Refusal;
use codes::Code;
pub use entry::{Entry, Name};
use labels::{END, LABEL, PARENT, START};
pub use reading::{Reading, Sound};

/// The largest number of entries.
pub const MOST: usize = 4096;

/// The largest depth.
pub const DEEPEST: u32 = 63;

/// Where the count stands.
pub const COUNT: usize = 0;

/// Where the zero stands behind it.
pub const ZERO: usize = COUNT + 4;

/// Where the entries begin.
pub const HEADER: usize = ZERO + 4;

/// Where an identity stands in its entry.
pub const IDENTITY: usize = 0;

/// Where a tag stands in its entry.
pub const TAG: usize = IDENTITY + 4;

/// Where a label stands in its entry.
pub const ENTRY_LABEL: usize = TAG + 4;

/// How many bytes an entry has.
pub const ENTRY: usize = ENTRY_LABEL + LABEL;

/// Where an identity stands, from 0, or that it does not.
// An enum of its own, taken apart by `let else`: a rule of the project on this lookup keeps it.
#[derive(Clone, Copy, Debug, PartialEq, Eq)]
pub enum Found {
    At(usize),
    Nothing,
}

/// The place of an identity, from 0. Refuses 5, 6.
pub fn place(register: &[u8], identity: u32) -> Result<usize, Refusal>
    ensures answer { result ≡ place_answer register.now identity }
{
    let register = Sound::check(register)?;
    register.place_of(identity)
}

/// The depth of an identity. Refuses 5, 6.
pub fn depth(register: &[u8], identity: u32) -> Result<usize, Refusal>
    ensures answer { result ≡ depth_result register.now identity }
{
    let register = Sound::check(register)?;
    let place = register.place_of(identity)?;
    Ok(register.depth_at(place))
}

/// The place of y minus the place of x. Refuses 5, 6.
pub fn distance(register: &[u8], x: u32, y: u32) -> Result<i32, Refusal>
    ensures answer { result ≡ distance_result register.now x y }
{
    let register = Sound::check(register)?;
    let from = register.place_of(x)?;
    let to = register.place_of(y)?;
    Ok(to as i32 - from as i32)
}

/// Whether a buffer holds a sound register.
pub fn sound(register: &[u8]) -> bool
    ensures sound { result ≡ is_register_sound register.now }
{
    Sound::check(register).is_ok()
}

/// Where an identity stands among the counted entries.
// It stays beside the method of `Reading`: of the bytes it asks only that they have a register's size.
pub fn find(register: &[u8], identity: u32) -> Found
    requires sized { is_sized register.now ≡ true }
    ensures found { result ≡ found_in register.now identity }
{
    Reading {
        bytes: register,
        count: count(register),
    }
    .find(identity)
}

/// The number of entries above the one at a place.
// It stays beside the method of `Sound`: a caller that knows the bytes to be sound has no check to make.
#[tactic(auto, using(crate::proofs::QuestionLaws::sized_of))]
pub fn depth_at(register: &[u8], place: usize) -> usize
    requires sound { is_register_sound register.now ≡ true }
    requires place { place < count_of register.now }
    ensures depth { result ≡ depth_in (line_at register.now place) (lines_of register.now) }
{
    let reading = Reading {
        bytes: register,
        count: count(register),
    };
    Sound { reading }.depth_at(place)
}

/// The number of entries that a register says it has.
#[inline(always)]
pub fn count(register: &[u8]) -> usize
    requires header { header_size ≤ length register.now }
    ensures count { result ≡ count_of register.now }
{
    numbers::read_u32(register, COUNT) as usize
}

/// The code of a field, spread out.
// It stays beside the method of `Reading`: of the bytes it asks only that the field holds a code.
#[inline(always)]
pub fn code_at(register: &[u8], at: usize) -> Code
    requires code { CodeAt register.now at }
    ensures held { Held result (code_at register.now at) }
    ensures short { Short result }
{
    codes::code_of(labels::field(register, at))
}

/// The code of one field is below that of another.
// It stays beside the method of `Reading`: of the bytes it asks only that the two fields hold codes.
#[inline(always)]
#[tactic(auto, using(crate::proofs::SoundLaws::codes_below))]
pub fn fields_below(register: &[u8], x: usize, y: usize) -> bool
    requires codes { CodeAt register.now x × CodeAt register.now y }
    ensures below { result ≡ is_below (code_at register.now x) (code_at register.now y) }
{
    codes::below(labels::field(register, x), labels::field(register, y))
}

/// Where entry i begins.
// Places are plain numbers: the definitions of the layout say them so; a type of numbers below the limit would be made at each call.
#[inline(always)]
pub fn entry_place(i: usize) -> usize
    requires most { i ≤ most_entries }
    ensures place { result ≡ entry_place i }
{
    HEADER + ENTRY * i
}

/// Where the start of entry i stands.
#[inline(always)]
pub fn start_place(i: usize) -> usize
    requires most { i ≤ most_entries }
    ensures place { result ≡ start_place i }
{
    field_place(i, START)
}

/// Where the end of entry i stands.
#[inline(always)]
pub fn end_place(i: usize) -> usize
    requires most { i ≤ most_entries }
    ensures place { result ≡ end_place i }
{
    field_place(i, END)
}

/// Where the parent start of entry i stands.
#[inline(always)]
pub fn parent_place(i: usize) -> usize
    requires most { i ≤ most_entries }
    ensures place { result ≡ parent_place i }
{
    field_place(i, PARENT)
}

/// Where a field of the label of entry i stands, by its place in the label.
#[inline(always)]
fn field_place(i: usize, at: usize) -> usize
    requires most { i ≤ most_entries }
    requires label { at ≤ label_size }
    ensures place { result ≡ entry_place i + label_at + at }
{
    entry_place(i) + ENTRY_LABEL + at
}

/// Leaves the count of entries and the zero behind it.
// It and the writers below take the register and an entry's number: their clauses `bytes` say every byte, and of a struct that holds
// the `&mut` the register's owner would learn none (tried in `tables`).
pub fn write_header(register: &mut [u8], count: usize)
    requires room { header_size ≤ length register.old }
    requires most { count ≤ most_entries }
    ensures bytes { register.new ≡ put register.old count_at (le4 count ++ le4 0) }
{
    numbers::write_u32(register, COUNT, count as u32);
    numbers::write_u32(register, ZERO, 0);
}

// Leaves identity, tag and start of entry i.
#[inline(always)]
fn write_head(register: &mut [u8], i: usize, name: Name, start: &Code)
    requires place { HasPlace register.old i }
    requires start { IsCode (digits_of start.now) }
    ensures bytes { register.new ≡ put register.old (entry_place i)
        (le4 name.identity ++ (le4 name.tag ++ field_of (digits_of start.now))) }
{
    let place = entry_place(i);
    numbers::write_u32(register, place + IDENTITY, name.identity);
    numbers::write_u32(register, place + TAG, name.tag);
    codes::write_code(register, place + ENTRY_LABEL + START, start);
}

/// Leaves identity, tag and start of entry i, and an empty end.
pub fn begin(register: &mut [u8], i: usize, name: Name, start: &Code)
    requires place { HasPlace register.old i }
    requires start { IsCode (digits_of start.now) }
    ensures bytes { register.new ≡ put register.old (entry_place i)
        (le4 name.identity ++ (le4 name.tag ++ (field_of (digits_of start.now) ++ field_of []))) }
{
    write_head(register, i, name, start);
    let end = end_place(i);
    register[end..end + Code::FIELD].fill(0);
}

/// Leaves the end of entry i.
pub fn write_end(register: &mut [u8], i: usize, end: &Code)
    requires place { HasPlace register.old i }
    requires end { IsCode (digits_of end.now) }
    ensures bytes { register.new ≡ put register.old (end_place i) (field_of (digits_of end.now)) }
{
    codes::write_code(register, end_place(i), end);
}

/// Leaves entry i whole.
pub fn write_entry(register: &mut [u8], i: usize, entry: &Entry)
    requires place { HasPlace register.old i }
    requires start { IsCode (digits_of entry.now.start) }
    requires end { IsCode (digits_of entry.now.end) }
    requires parent { IsCode (digits_of entry.now.parent) }
    ensures bytes { register.new ≡ put register.old (entry_place i)
        (entry_bytes (record {
          name = record { identity = entry.now.name.identity; tag = entry.now.name.tag };
          start = digits_of entry.now.start;
          end = digits_of entry.now.end;
          parent = digits_of entry.now.parent;
        })) }
{
    write_head(register, i, entry.name, &entry.start);
    codes::write_code(register, end_place(i), &entry.end);
    codes::write_code(register, parent_place(i), &entry.parent);
}

/// Leaves an empty parent start in entry i.
#[tactic(auto, using(numbers::proofs::PutLaws::runs, crate::proofs::WriteLaws::field_empty))]
pub fn clear_parent(register: &mut [u8], i: usize)
    requires place { HasPlace register.old i }
    ensures bytes { register.new ≡ put register.old (parent_place i) (field_of []) }
{
    let at = parent_place(i);
    register[at..at + Code::FIELD].fill(0);
}

/// Leaves in entry i, as its parent start, the start of its parent, which stands no later.
#[tactic(auto, unfolding(numbers::specs::Bytes::put))]
pub fn copy_parent(register: &mut [u8], i: usize, parent: usize)
    requires place { HasPlace register.old i }
    requires earlier { parent ≤ i }
    ensures bytes { register.new
        ≡ put register.old (parent_place i) (field_at (start_place parent) register.old) }
{
    let from = start_place(parent);
    register.copy_within(from..from + Code::FIELD, parent_place(i));
}
