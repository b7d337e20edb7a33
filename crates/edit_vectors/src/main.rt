//! Runs edits over the documents' figures, each refusal and both sides of each limit, and prints what they answer and leave.
#![tactic(auto)]

ghost use Rattle.std.specs.Prelude.{◌≤◌, length};
ghost use Rattle.edit_vectors.specs.declared.TheConstants.{ROOMY};

use answers::Refusal;
use codes::Code;
use edits::{Edit, Place};
use labels::{END, PARENT, START};
use printer::answered;
use registers::{ENTRY, ENTRY_LABEL, HEADER, MOST};
use std::io;
use tables::ROW;

/// What a lent buffer holds before a call: 5a.
const FILL: u8 = 90;

/// The worked rows of the documents.
const WORKED: [u32; 4 * ROW] = [10, 1, 0, 11, 2, 1, 12, 2, 1, 13, 3, 2];

/// The bytes of their register, and with room for one entry more.
const FULL: usize = HEADER + ENTRY * 4;

const ROOMY: usize = FULL + ENTRY;

fn main(rt: HostRuntime) -> io::Result<()> {
    insertions(&rt)?;
    deletions(&rt)?;
    refusals(&rt)?;
    damages(&rt)?;
    freed(&rt)?;
    growth(&rt)?;
    ends(&rt)?;
    depths(&rt)?;
    entries(&rt)
}

/// What a call answers whose refusal would be a fault of the test.
fn accepted(answer: Result<usize, Refusal>) -> io::Result<usize> {
    answer.map_err(|_| io::Error::other("refused where the test needs an answer"))
}

/// The worked register.
fn worked() -> io::Result<[u8; ROOMY]> {
    let mut register = [FILL; ROOMY];
    accepted(tables::label(&WORKED, &mut register))?;
    Ok(register)
}

fn put(place: Place, identity: u32) -> Edit {
    Edit::Insert {
        place,
        identity,
        tag: 4,
    }
}

fn delete(target: u32) -> Edit {
    Edit::Delete { target }
}

/// P8 to P10, and places with no figure of their own: one whose target has children, the first and the last.
fn insertions(rt: &impl Print) -> io::Result<()> {
    let cases = [
        ("P8, first child of 12", put(Place::FirstChildOf(12), 14)),
        ("P9, after 11", put(Place::After(11), 14)),
        ("P10, last child of 11", put(Place::LastChildOf(11), 14)),
        ("after 12", put(Place::After(12), 14)),
        ("last child of 12", put(Place::LastChildOf(12), 14)),
        ("before 11", put(Place::Before(11), 14)),
    ];
    for (name, edit) in cases {
        edited(rt, name, edit)?;
    }
    Ok(())
}

/// The last entry and one in the middle, and what stands behind the entries that are left.
fn deletions(rt: &impl Print) -> io::Result<()> {
    edited(rt, "delete 13", delete(13))?;
    edited(rt, "delete 11", delete(11))?;
    let mut register = worked()?;
    accepted(edits::apply(&mut register, delete(13)))?;
    let (counted, behind) = register.split_at(FULL);
    let freed = &counted[FULL - ENTRY..];
    println!(rt;
        "bytes of the freed 104 that are not zero: {}",
        others(freed, 0)
    )?;
    println!(rt;
        "bytes behind them that are changed: {}",
        others(behind, FILL)
    )
}

/// How many bytes are not the given one.
fn others(bytes: &[u8], byte: u8) -> usize {
    bytes.iter().filter(|b| **b != byte).count()
}

/// Edits the worked register, and prints the answer and all lines.
fn edited(rt: &impl Print, name: &str, edit: Edit) -> io::Result<()> {
    let mut register = worked()?;
    attempt(rt, name, &mut register, edit)?;
    lines(rt, &register)
}

/// Edits a register, and prints the answer on a line.
fn attempt(rt: &impl Print, name: &str, register: &mut [u8], edit: Edit) -> io::Result<()> {
    print!(rt; "{name}:")?;
    answered(rt, edits::apply(register, edit))?;
    println!(rt)
}

/// The same with a register's first bytes alone. The part is taken here: tried at the callers, where its bound is left open after an
/// earlier call.
fn attempt_in(
    rt: &impl Print,
    name: &str,
    register: &mut [u8],
    room: usize,
    edit: Edit,
) -> io::Result<()>
    requires { room ≤ length register.old }
{
    attempt(rt, name, &mut register[..room], edit)
}

/// The lines of the entries that a register counts.
fn lines(rt: &impl Print, register: &[u8]) -> io::Result<()>
    requires { HEADER ≤ length register.now }
{
    let n = registers::count(register);
    if (register.len() - HEADER) / ENTRY < n {
        return Err(io::Error::other("a count of more entries than there are"));
    }
    printer::lines(rt, register, n)
}

/// An edit of the worked register, and how many of its bytes are lent.
#[derive(Clone, Copy)]
struct Case<'a> {
    name: &'a str,
    edit: Edit,
    room: usize,
    ghost fits: { room ≤ ROOMY },
}

impl<'a> Case<'a> {
    /// With room for one entry more.
    fn new(name: &'a str, edit: Edit) -> Self {
        Case::within(name, edit, ROOMY)
    }

    fn within(name: &'a str, edit: Edit, room: usize) -> Self
        requires { room ≤ ROOMY }
    {
        Case { name, edit, room }
    }
}

/// Makes each edit in a copy of a register, and prints the answer and how many bytes are changed.
fn tried(rt: &impl Print, register: &[u8; ROOMY], cases: &[Case]) -> io::Result<()> {
    for case in cases {
        let mut edited = *register;
        print!(rt; "{}:", case.name)?;
        answered(rt, edits::apply(&mut edited[..case.room], case.edit))?;
        let changed = register
            .iter()
            .zip(edited.iter())
            .filter(|(a, b)| a != b)
            .count();
        println!(rt; " bytes changed: {changed}")?;
    }
    Ok(())
}

/// 6, 7, 3 and 9; at the root 7 comes before 9. Then two reasons at once; those with 5, 8, 9 or 10 stand elsewhere. Then 4: P9 has 528
/// bytes, and one entry more takes all of them.
fn refusals(rt: &impl Print) -> io::Result<()> {
    let cases = [
        Case::new("first child of 99", put(Place::FirstChildOf(99), 14)),
        Case::new("last child of 99", put(Place::LastChildOf(99), 14)),
        Case::new("before 99", put(Place::Before(99), 14)),
        Case::new("after 0", put(Place::After(0), 14)),
        Case::new("delete 99", delete(99)),
        Case::new("before the root", put(Place::Before(10), 14)),
        Case::new("after the root", put(Place::After(10), 14)),
        Case::new("delete the root, which has children", delete(10)),
        Case::new("identity 0", put(Place::FirstChildOf(12), 0)),
        Case::new("identity of the target", put(Place::FirstChildOf(12), 12)),
        Case::new("identity of another", put(Place::FirstChildOf(12), 13)),
        Case::new("delete 12, which has a child", delete(12)),
        Case::new("6 and 3", put(Place::Before(99), 10)),
        Case::new("7 and 3", put(Place::Before(10), 0)),
        Case::within("6 and 4", put(Place::After(99), 14), FULL),
        Case::within("7 and 4", put(Place::After(10), 14), FULL),
        Case::within("3 and 4", put(Place::After(12), 13), FULL),
        Case::within(
            "after 11 in 527 bytes",
            put(Place::After(11), 14),
            ROOMY - 1,
        ),
        Case::within("after 11 in 424 bytes", put(Place::After(11), 14), FULL),
    ];
    tried(rt, &worked()?, &cases)
}

/// 5, and before the other reasons: the start of 12 becomes 13, below the end of 11, or the register is cut.
fn damages(rt: &impl Print) -> io::Result<()> {
    let mut register = worked()?;
    register[HEADER + ENTRY * 2 + ENTRY_LABEL + START] = 0x70;
    let cases = [
        Case::new(
            "damaged, first child of 12",
            put(Place::FirstChildOf(12), 14),
        ),
        Case::new("damaged, after 99", put(Place::After(99), 14)),
        Case::new("damaged, before the root", put(Place::Before(10), 0)),
        Case::new("damaged, delete 13", delete(13)),
        Case::new("damaged, delete 99", delete(99)),
    ];
    tried(rt, &register, &cases)?;
    let cut = [
        Case::within("after 11 in 423 bytes", put(Place::After(11), 14), FULL - 1),
        Case::within("delete 13 in 423 bytes", delete(13), FULL - 1),
    ];
    tried(rt, &worked()?, &cut)
}

/// In a buffer that is full, a freed place serves the next insertion, with the same identity.
fn freed(rt: &impl Print) -> io::Result<()> {
    let mut register = [FILL; FULL];
    accepted(tables::label(&WORKED, &mut register))?;
    attempt(rt, "full", &mut register, put(Place::FirstChildOf(12), 14))?;
    attempt(rt, "full, delete 13", &mut register, delete(13))?;
    attempt(
        rt,
        "first child of 12",
        &mut register,
        put(Place::FirstChildOf(12), 13),
    )?;
    lines(rt, &register)?;
    attempt(
        rt,
        "full again",
        &mut register,
        put(Place::FirstChildOf(12), 14),
    )
}

/// From one row, always first child of the root: the codes grow to 127 digits. 4 comes before 8.
fn growth(rt: &impl Print) -> io::Result<()> {
    let mut register = [FILL; HEADER + ENTRY * 128];
    accepted(tables::label(&[1, 0, 0], &mut register))?;
    let n = grown(&mut register, |_| Place::FirstChildOf(1));
    println!(rt; "always first child of the root, accepted: {n}")?;
    digit_counts(rt, &register[HEADER + ENTRY..])?;
    let next = put(Place::FirstChildOf(1), 200);
    attempt(rt, "first child of the root again", &mut register, next)?;
    attempt_in(rt, "4 and 8", &mut register, HEADER + ENTRY * 127, next)?;
    attempt(rt, "3 and 8", &mut register, put(Place::FirstChildOf(1), 1))?;
    attempt(
        rt,
        "last child of the root",
        &mut register,
        put(Place::LastChildOf(1), 200),
    )
}

/// Each start has as many digits as the end before it, each end one more: at last only the end would pass 127.
fn ends(rt: &impl Print) -> io::Result<()> {
    let mut register = [FILL; HEADER + ENTRY * 128];
    accepted(tables::label(&[900, 0, 0, 901, 0, 1], &mut register))?;
    attempt(
        rt,
        "first child of 900",
        &mut register,
        put(Place::FirstChildOf(900), 1),
    )?;
    lines(rt, &register)?;
    let n = grown(&mut register, Place::After);
    println!(rt; "always after the last one put in, accepted: {n}")?;
    digit_counts(rt, &register[HEADER + ENTRY * 125..])?;
    attempt(
        rt,
        "after the last one again",
        &mut register,
        put(Place::After(125), 200),
    )
}

/// From one row, always first child of the last one put in: depth 63 is reached. 3 comes before 10, 10 before 4.
fn depths(rt: &impl Print) -> io::Result<()> {
    let mut register = [FILL; HEADER + ENTRY * 66];
    accepted(tables::label(&[1, 0, 0], &mut register))?;
    let n = grown(&mut register, Place::FirstChildOf);
    println!(rt; "always one deeper, accepted: {n}")?;
    let deeper = put(Place::FirstChildOf(64), 65);
    attempt(rt, "first child of the deepest", &mut register, deeper)?;
    attempt(
        rt,
        "last child of the deepest",
        &mut register,
        put(Place::LastChildOf(64), 65),
    )?;
    attempt(
        rt,
        "3 and 10",
        &mut register,
        put(Place::FirstChildOf(64), 64),
    )?;
    attempt_in(rt, "10 and 4", &mut register, HEADER + ENTRY * 64, deeper)?;
    attempt(
        rt,
        "before the deepest",
        &mut register,
        put(Place::Before(64), 65),
    )?;
    attempt(
        rt,
        "after the deepest",
        &mut register,
        put(Place::After(64), 66),
    )
}

/// Puts entries in until one is refused, each at a place that the identity of the last one gives, and answers how many were taken.
/// Growth starts at identity 1.
fn grown<F: Fn(u32) -> Place>(register: &mut [u8], place: F) -> u32
    requires { F.IsAlwaysCallable place }
{
    for n in 0..MOST as u32 {
        if edits::apply(register, put(place(n + 1), n + 2)).is_err() {
            return n;
        }
    }
    MOST as u32
}

/// Both sides of 4,096 entries, with room for one more.
fn entries(rt: &impl Print) -> io::Result<()> {
    let mut register = [FILL; HEADER + ENTRY * (MOST + 1)];
    let mut table = [1; ROW * (MOST - 1)];
    for row in 0..MOST as u32 - 1 {
        table[ROW * row as usize] = row + 1;
    }
    table[2] = 0;
    accepted(tables::label(&table, &mut register))?;
    let cases = [
        (
            "4095 entries, after the last",
            put(Place::After(4095), 4096),
        ),
        (
            "4096 entries, after the last",
            put(Place::After(4096), 4097),
        ),
        ("4096 entries, 3 and 4", put(Place::After(4096), 1)),
    ];
    for (name, edit) in cases {
        attempt(rt, name, &mut register, edit)?;
    }
    Ok(())
}

/// How many digits the codes of the first entry in some bytes have.
fn digit_counts(rt: &impl Print, entry: &[u8]) -> io::Result<()>
    requires { ENTRY ≤ length entry.now }
{
    let label = &entry[ENTRY_LABEL..];
    for (name, field) in [("start", &label[START..END]), ("end", &label[END..PARENT])] {
        print!(rt; "digits of the last {name}:")?;
        answered(rt, Code::unpack(field, &mut [0; Code::LONGEST]))?;
        println!(rt)?;
    }
    Ok(())
}
