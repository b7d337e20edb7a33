//! The calls of `codes`, `labels`, `registers`, `tables` and `edits` as C functions, as include/plant.h declares them: each makes a
//! signed number of what the call answers.
//! Each writing call has two clauses, `answer` and `bytes`, as the call that it stands on: by these names its promise is cited.
#![tactic(auto)]

ghost use Rattle.std.specs.Prelude.{◌≡◌};
ghost use Rattle.answers.specs.Signed.{signed_of, signed_row_of};
ghost use Rattle.codes.specs.Calls.{pack_outcome, unpack_outcome, between_outcome};
ghost use Rattle.registers.specs.Questions.{place_answer, depth_answer, distance_answer};
ghost use Rattle.tables.specs.Labelling.{label_outcome};
ghost use Rattle.edits.specs.Edits.{apply_outcome};
ghost use Rattle.labels.specs.Questions.{order_answer, above_answer, parent_answer, sibling_answer};

use answers::Signed;
use codes::Code;
use edits::{Edit, Place};

/// Minus one, zero or plus one, as u starts before v, where it does, or behind it.
#[unsafe(no_mangle)]
pub extern "C" fn plant_order(u: &[u8], v: &[u8]) -> i32
    ensures answer { result ≡ order_answer u.now v.now }
{
    labels::order(u, v).signed()
}

/// Whether u is an ancestor of v.
#[unsafe(no_mangle)]
pub extern "C" fn plant_above(u: &[u8], v: &[u8]) -> i32
    ensures answer { result ≡ above_answer u.now v.now }
{
    labels::above(u, v).signed()
}

/// Whether u is the parent of v.
#[unsafe(no_mangle)]
pub extern "C" fn plant_parent(u: &[u8], v: &[u8]) -> i32
    ensures answer { result ≡ parent_answer u.now v.now }
{
    labels::parent(u, v).signed()
}

/// Whether u and v are two children of one parent.
#[unsafe(no_mangle)]
pub extern "C" fn plant_sibling(u: &[u8], v: &[u8]) -> i32
    ensures answer { result ≡ sibling_answer u.now v.now }
{
    labels::sibling(u, v).signed()
}

/// Packs digits into a field; their number.
#[unsafe(no_mangle)]
pub extern "C" fn plant_pack(digits: &[u8], field: &mut [u8]) -> i32
    ensures answer { result ≡ signed_of (pack_outcome digits.now field.old).answer }
    ensures bytes { field.new ≡ (pack_outcome digits.now field.old).bytes }
{
    Code::pack(digits, field).signed()
}

/// Unpacks a field into digits; their number.
#[unsafe(no_mangle)]
pub extern "C" fn plant_unpack(field: &[u8], digits: &mut [u8]) -> i32
    ensures answer { result ≡ signed_of (unpack_outcome field.now digits.old).answer }
    ensures bytes { digits.new ≡ (unpack_outcome field.now digits.old).bytes }
{
    Code::unpack(field, digits).signed()
}

/// Writes the field of the code between two sides; its number of digits.
#[unsafe(no_mangle)]
pub extern "C" fn plant_between(left: &[u8], right: &[u8], field: &mut [u8]) -> i32
    ensures answer { result ≡ signed_of (between_outcome left.now right.now field.old).answer }
    ensures bytes { field.new ≡ (between_outcome left.now right.now field.old).bytes }
{
    Code::between(left, right, field).signed()
}

/// Writes the register of a table, with first codes; its bytes. A refusal tells its row.
#[unsafe(no_mangle)]
pub extern "C" fn plant_label(table: &[u32], register: &mut [u8]) -> i64
    ensures answer { result ≡ signed_row_of (label_outcome table.now register.old).answer }
    ensures bytes { register.new ≡ (label_outcome table.now register.old).bytes }
{
    answers::signed_row(tables::label(table, register))
}

/// The place of an identity, from 0.
#[unsafe(no_mangle)]
pub extern "C" fn plant_place(register: &[u8], identity: u32) -> i32
    ensures answer { result ≡ signed_of (place_answer register.now identity) }
{
    registers::place(register, identity).signed()
}

/// The depth of an identity.
#[unsafe(no_mangle)]
pub extern "C" fn plant_depth(register: &[u8], identity: u32) -> i32
    ensures answer { result ≡ depth_answer register.now identity }
{
    registers::depth(register, identity).signed()
}

/// The place of y minus the place of x.
#[unsafe(no_mangle)]
pub extern "C" fn plant_distance(register: &[u8], x: u32, y: u32) -> i32
    ensures answer { result ≡ distance_answer register.now x y }
{
    registers::distance(register, x, y).signed()
}

/// Puts an entry in as the first child of the target; its place.
// Four functions, one for each place: the C interface, include/plant.h, names them so.
#[unsafe(no_mangle)]
pub extern "C" fn plant_insert_first(
    register: &mut [u8],
    target: u32,
    identity: u32,
    tag: u32,
) -> i32
    ensures answer { result ≡ signed_of
        (apply_outcome register.old (Edit.Insert (Place.FirstChildOf target) identity tag)).answer }
    ensures bytes { register.new
        ≡ (apply_outcome register.old (Edit.Insert (Place.FirstChildOf target) identity tag)).bytes }
{
    applied(
        register,
        Edit::Insert {
            place: Place::FirstChildOf(target),
            identity,
            tag,
        },
    )
}

/// Puts an entry in as the last child of the target; its place.
#[unsafe(no_mangle)]
pub extern "C" fn plant_insert_last(
    register: &mut [u8],
    target: u32,
    identity: u32,
    tag: u32,
) -> i32
    ensures answer { result ≡ signed_of
        (apply_outcome register.old (Edit.Insert (Place.LastChildOf target) identity tag)).answer }
    ensures bytes { register.new
        ≡ (apply_outcome register.old (Edit.Insert (Place.LastChildOf target) identity tag)).bytes }
{
    applied(
        register,
        Edit::Insert {
            place: Place::LastChildOf(target),
            identity,
            tag,
        },
    )
}

/// Puts an entry in before the target; its place.
#[unsafe(no_mangle)]
pub extern "C" fn plant_insert_before(
    register: &mut [u8],
    target: u32,
    identity: u32,
    tag: u32,
) -> i32
    ensures answer { result ≡ signed_of
        (apply_outcome register.old (Edit.Insert (Place.Before target) identity tag)).answer }
    ensures bytes { register.new
        ≡ (apply_outcome register.old (Edit.Insert (Place.Before target) identity tag)).bytes }
{
    applied(
        register,
        Edit::Insert {
            place: Place::Before(target),
            identity,
            tag,
        },
    )
}

/// Puts an entry in after the target; its place.
#[unsafe(no_mangle)]
pub extern "C" fn plant_insert_after(
    register: &mut [u8],
    target: u32,
    identity: u32,
    tag: u32,
) -> i32
    ensures answer { result ≡ signed_of
        (apply_outcome register.old (Edit.Insert (Place.After target) identity tag)).answer }
    ensures bytes { register.new
        ≡ (apply_outcome register.old (Edit.Insert (Place.After target) identity tag)).bytes }
{
    applied(
        register,
        Edit::Insert {
            place: Place::After(target),
            identity,
            tag,
        },
    )
}

/// Takes the target out; the place that it had.
#[unsafe(no_mangle)]
pub extern "C" fn plant_delete(register: &mut [u8], target: u32) -> i32
    ensures answer { result ≡ signed_of (apply_outcome register.old (Edit.Delete target)).answer }
    ensures bytes { register.new ≡ (apply_outcome register.old (Edit.Delete target)).bytes }
{
    applied(register, Edit::Delete { target })
}

/// An edit, its answer as a number.
fn applied(register: &mut [u8], edit: Edit) -> i32
    ensures answer { result ≡ signed_of (apply_outcome register.old edit).answer }
    ensures bytes { register.new ≡ (apply_outcome register.old edit).bytes }
{
    edits::apply(register, edit).signed()
}
