//! Runs the calls on codes and labelling over the documents' figures and over both sides of each limit, and prints what
//! they answer and leave.
#![tactic(auto)]

ghost use Rattle.std.specs.Prelude.{◌*◌, ◌^◌, ◌<◌, ◌≤◌, length};
ghost use Rattle.vectors.specs.declared.TheConstants.{WORKED_BUFFER};

use answers::Refusal;
use codes::{Code, Field};
use labels::{END, PARENT, START};
use printer::answered;
use registers::{COUNT, ENTRY, ENTRY_LABEL, HEADER, IDENTITY, MOST, TAG, ZERO};
use std::io;
use tables::ROW;

/// What a lent buffer holds before a call: 5a.
const FILL: u8 = 90;

/// An open side: the empty field.
const OPEN: Field = [0; Code::FIELD];

/// Bytes that are no field: digits with no end.
const UNSOUND: Field = [255; Code::FIELD];

/// The bytes of a buffer for a field or for digits: a few more than the longest takes.
const FIELD_BUFFER: usize = Code::FIELD + 8;

const DIGITS_BUFFER: usize = Code::LONGEST + 3;

/// The worked rows of the documents.
const WORKED: [u32; 4 * ROW] = [10, 1, 0, 11, 2, 1, 12, 2, 1, 13, 3, 2];

/// Where the entries of their register begin, its bytes, and a buffer of a few more.
const FIRST: usize = HEADER;

const SECOND: usize = FIRST + ENTRY;

const THIRD: usize = SECOND + ENTRY;

const FOURTH: usize = THIRD + ENTRY;

const WORKED_SIZE: usize = FOURTH + ENTRY;

const WORKED_BUFFER: usize = WORKED_SIZE + 8;

/// Nine rows: a start or an end for each of the 18 numbers of the documents' table of first codes.
const NINE: [u32; 9 * ROW] = [
    1, 0, 0, 2, 0, 1, 3, 0, 2, 4, 0, 3, 5, 0, 1, 6, 0, 1, 7, 0, 2, 8, 0, 2, 9, 0, 1,
];

/// The bytes of the largest register.
const LARGEST: usize = HEADER + ENTRY * MOST;

fn main(rt: HostRuntime) -> io::Result<()> {
    first_codes(&rt)?;
    steps(&rt)?;
    fields(&rt)?;
    packing(&rt)?;
    unpacking(&rt)?;
    betweens(&rt)?;
    longest(&rt)?;
    packer(&rt)?;
    labelling(&rt)?;
    registers_damaged(&rt)
}

/// What a call answers whose refusal would be a fault of the test.
fn accepted(answer: Result<usize, Refusal>) -> io::Result<usize> {
    answer.map_err(|_| io::Error::other("refused where the test needs an answer"))
}

/// First labelling. To be compared: the lines of the worked rows with those in the documents; the nine rows' starts and ends, met
/// along the tour (112 of row 1, 12 of row 2, .., 332 of row 1), with the table of first codes from top to bottom; the one row's
/// with P1.
fn first_codes(rt: &impl Print) -> io::Result<()> {
    println!(rt; "01's worked rows:")?;
    labelled(rt, &WORKED)?;
    println!(rt; "table 3, on nine rows:")?;
    labelled(rt, &NINE)?;
    println!(rt; "P1, one row:")?;
    labelled(rt, &[4294967295, 4294967295, 0])
}

/// The lines of a table's register, and the bytes past it.
fn labelled(rt: &impl Print, table: &[u32]) -> io::Result<()>
    requires few { length table.now ≤ 9 * ROW }
{
    let mut register = [FILL; HEADER + ENTRY * 9];
    accepted(tables::label(table, &mut register))?;
    let n = table.len() / ROW;
    printer::lines(rt, &register, n)?;
    print!(rt; "past them:")?;
    runs(rt, &register[HEADER + ENTRY * n..])
}

/// The field of some digits; with none, an open side.
fn field_of(digits: &[u8]) -> io::Result<Field> {
    let mut field = OPEN;
    if !digits.is_empty() {
        accepted(Code::pack(digits, &mut field))?;
    }
    Ok(field)
}

/// P2 to P7.
fn steps(rt: &impl Print) -> io::Result<()> {
    let cases: [(&str, &[u8], &[u8]); 6] = [
        ("P2", &[2], &[3]),
        ("P3", &[], &[]),
        ("P4", &[], &[2]),
        ("P5", &[2], &[2, 3]),
        ("P6", &[2, 2], &[3]),
        ("P7", &[2, 3], &[3]),
    ];
    for (name, left, right) in cases {
        print!(rt; "{name}: ")?;
        step(rt, &field_of(left)?, &field_of(right)?)?;
    }
    Ok(())
}

/// The digits of the code between two sides.
fn step(rt: &impl Print, left: &Field, right: &Field) -> io::Result<()> {
    let mut field = OPEN;
    accepted(Code::between(left, right, &mut field))?;
    let mut digits = [0; Code::LONGEST];
    let n = accepted(Code::unpack(&field, &mut digits))?;
    for digit in digits.iter().take(n) {
        print!(rt; "{digit}")?;
    }
    println!(rt)
}

/// P11 to P14.
fn fields(rt: &impl Print) -> io::Result<()> {
    let packed: [(&str, &[u8]); 3] = [
        ("P11", &[1, 2]),
        ("P12", &[2, 2, 3]),
        ("P13", &[2, 2, 2, 2]),
    ];
    for (name, digits) in packed {
        print!(rt; "{name}:")?;
        runs(rt, &field_of(digits)?)?;
    }
    let ordered: [(&str, &[u8], &[u8]); 3] = [
        ("P14", &[1, 2], &[1, 2, 2]),
        ("112 before 12", &[1, 1, 2], &[1, 2]),
        ("12 before 112", &[1, 2], &[1, 1, 2]),
    ];
    for (name, left, right) in ordered {
        let before = codes::below(&field_of(left)?, &field_of(right)?);
        println!(rt; "{name}: {}", if before { "yes" } else { "no" })?;
    }
    Ok(())
}

/// A call's name in the output, what it reads, and how many of N bytes it is lent.
#[derive(Drop)]
struct Lent<'a, T, const N: usize> {
    name: &'a str,
    input: T,
    room: usize,
    ghost fits: { room ≤ N },
}

impl<'a, T, const N: usize> Lent<'a, T, N> {
    /// All N bytes.
    fn new(name: &'a str, input: T) -> Self {
        Lent::within(name, input, N)
    }

    fn within(name: &'a str, input: T, room: usize) -> Self
        requires { room ≤ N }
    {
        Lent { name, input, room }
    }
}

/// Makes the same call in each case, and prints what it answers and what the N bytes then hold.
fn called<T: Copy, const N: usize, F: Fn(T, &mut [u8]) -> Result<usize, Refusal>>(
    rt: &impl Print,
    cases: &[Lent<'_, T, N>],
    call: F,
) -> io::Result<()>
    requires callable { F.IsAlwaysCallable call }
    requires small { N < 2 ^ 63 }
{
    for case in cases {
        let mut buffer = [FILL; N];
        print!(rt; "{}:", case.name)?;
        answered(rt, call(case.input, &mut buffer[..case.room]))?;
        runs(rt, &buffer)?;
    }
    Ok(())
}

fn packing(rt: &impl Print) -> io::Result<()> {
    let cases: [Lent<&[u8], FIELD_BUFFER>; 13] = [
        Lent::within("pack 12 in 32", &[1, 2], Code::FIELD),
        Lent::new("pack 12 in 40", &[1, 2]),
        Lent::within("pack 12 in 31", &[1, 2], Code::FIELD - 1),
        Lent::within("pack 2223 in 32", &[2, 2, 2, 3], Code::FIELD),
        Lent::new("pack nothing", &[]),
        Lent::new("pack 1", &[1]),
        Lent::new("pack 231", &[2, 3, 1]),
        Lent::new("pack 202", &[2, 0, 2]),
        Lent::new("pack 242", &[2, 4, 2]),
        Lent::new("pack 24", &[2, 4]),
        Lent::within("pack 1 in 0", &[1], 0),
        Lent::new("pack 127 digits", &[3; Code::LONGEST]),
        Lent::new("pack 128 digits", &[3; Code::LONGEST + 1]),
    ];
    called(rt, &cases, Code::pack)
}

fn unpacking(rt: &impl Print) -> io::Result<()> {
    let code = field_of(&[2, 3])?;
    let long = field_of(&[3; Code::LONGEST])?;
    let mut late = code;
    late[Code::FIELD - 1] = 0b10;
    let mut gone = code;
    gone[1] = 0b10_00_00;
    let mut last = code;
    last[0] = 0b10_11_01_00;
    let cases: [Lent<&[u8], DIGITS_BUFFER>; 14] = [
        Lent::within("unpack 23 in 2", &code, 2),
        Lent::within("unpack 23 in 9", &code, 9),
        Lent::within("unpack 23 in 1", &code, 1),
        Lent::new("unpack empty", &OPEN),
        Lent::within("unpack empty in 0", &OPEN, 0),
        Lent::new("unpack last bits set", &late),
        Lent::new("unpack digit after zero", &gone),
        Lent::new("unpack last digit 1", &last),
        Lent::new("unpack 128 digits", &UNSOUND),
        Lent::within("unpack 127 digits in 127", &long, Code::LONGEST),
        Lent::within("unpack 127 digits in 126", &long, Code::LONGEST - 1),
        Lent::new("unpack 31 bytes", &[0; Code::FIELD - 1]),
        Lent::new("unpack 33 bytes", &[0; Code::FIELD + 1]),
        Lent::new("unpack no bytes", &[]),
    ];
    called(rt, &cases, Code::unpack)
}

/// The code between two sides that come as a pair.
fn between((left, right): (&[u8], &[u8]), field: &mut [u8]) -> Result<usize, Refusal> {
    Code::between(left, right, field)
}

fn betweens(rt: &impl Print) -> io::Result<()> {
    let two = field_of(&[2])?;
    let three = field_of(&[3])?;
    let cases: [Lent<(&[u8], &[u8]), FIELD_BUFFER>; 11] = [
        Lent::new("between 2 and 3 in 40", (&two, &three)),
        Lent::within("between 2 and 3 in 32", (&two, &three), Code::FIELD),
        Lent::within("between 2 and 3 in 31", (&two, &three), Code::FIELD - 1),
        Lent::new("between 3 and 2", (&three, &two)),
        Lent::new("between 2 and 2", (&two, &two)),
        Lent::within("between 3 and 2 in 0", (&three, &two), 0),
        Lent::new("between unsound and 2", (&UNSOUND, &two)),
        Lent::new("between 2 and unsound", (&two, &UNSOUND)),
        Lent::within("between unsound and open in 0", (&UNSOUND, &OPEN), 0),
        Lent::new("between 31 bytes and open", (&[0; Code::FIELD - 1], &OPEN)),
        Lent::new("between open and 33 bytes", (&OPEN, &[0; Code::FIELD + 1])),
    ];
    called(rt, &cases, between)
}

/// Both sides of 127 digits.
fn longest(rt: &impl Print) -> io::Result<()> {
    let shorter = field_of(&[3; Code::LONGEST - 1])?;
    let long = field_of(&[3; Code::LONGEST])?;
    let mut even = [3; Code::LONGEST];
    even[Code::LONGEST - 1] = 2;
    let low = field_of(&even)?;
    let mut ones = [1; Code::LONGEST];
    ones[Code::LONGEST - 1] = 2;
    let least = field_of(&ones)?;
    let cases: [Lent<(&[u8], &[u8]), FIELD_BUFFER>; 7] = [
        Lent::new("between 126 digits and open", (&shorter, &OPEN)),
        Lent::new("between 127 digits ending in 3 and open", (&long, &OPEN)),
        Lent::new("between 127 digits ending in 2 and open", (&low, &OPEN)),
        Lent::new("between open and 127 digits ending in 2", (&OPEN, &least)),
        Lent::new("between open and 127 digits ending in 3", (&OPEN, &long)),
        Lent::new("between two of 127 digits", (&low, &long)),
        Lent::within(
            "between two of 127 digits in 31",
            (&low, &long),
            Code::FIELD - 1,
        ),
    ];
    called(rt, &cases, between)
}

/// The packer updated where it stands: 223 again. A call for each digit, since each is proved to follow the one before.
fn packer(rt: &impl Print) -> io::Result<()> {
    let one = codes::byte_after(0, 0, 2);
    let two = codes::byte_after(one, 1, 2);
    let three = codes::byte_after(two, 2, 3);
    print!(rt; "packer 223:")?;
    runs(rt, &[one, two, three])
}

/// Labelling: the room of the worked rows, each refusal, two reasons at once, and both sides of each limit.
fn labelling(rt: &impl Print) -> io::Result<()> {
    let cases: [(&str, &[u32], usize); 12] = [
        ("table of 01 in 424 bytes", &WORKED, WORKED_SIZE),
        ("table of 01 in 423 bytes", &WORKED, WORKED_SIZE - 1),
        ("table with identity 0 in no bytes", &[0, 1, 0], 0),
        ("table of no rows", &[], LARGEST),
        ("table of four numbers", &[10, 1, 0, 11], LARGEST),
        ("table with a first depth of 1", &[10, 1, 1], LARGEST),
        ("table with two roots", &[10, 1, 0, 11, 1, 0], LARGEST),
        (
            "table that leaves a depth out",
            &[10, 1, 0, 11, 1, 2],
            LARGEST,
        ),
        (
            "table with an identity twice",
            &[10, 1, 0, 10, 1, 1],
            LARGEST,
        ),
        ("table with identity 0", &[0, 1, 0], LARGEST),
        (
            "table with identity 0 at a first depth of 1",
            &[0, 1, 1],
            LARGEST,
        ),
        (
            "table with an identity twice above a depth left out",
            &[10, 1, 0, 10, 1, 1, 11, 1, 9],
            LARGEST,
        ),
    ];
    for (name, table, room) in cases {
        label(rt, name, table, if room < LARGEST { room } else { LARGEST })?;
    }
    let flat = |row: u32| if row == 0 { 0 } else { 1 };
    table_of(rt, "table of 4096 rows", 4096, flat)?;
    table_of(rt, "table of 4097 rows", 4097, flat)?;
    let deeper = |row: u32| row;
    table_of(rt, "table of 64 rows, each one deeper", 64, deeper)?;
    table_of(rt, "table of 65 rows, each one deeper", 65, deeper)
}

/// Labels a table of n rows, of which each has the depth that is given for it.
fn table_of<F: Fn(u32) -> u32>(rt: &impl Print, name: &str, n: u32, depth: F) -> io::Result<()>
    requires few { n ≤ 4097 }
    requires depth { F.IsAlwaysCallable depth }
{
    let mut table = [0; ROW * (MOST + 1)];
    for row in 0..n {
        let at = ROW * row as usize;
        table[at] = row + 1;
        table[at + 2] = depth(row);
    }
    label(rt, name, &table[..ROW * n as usize], LARGEST)
}

/// Labels a table into a register of some bytes.
fn label(rt: &impl Print, name: &str, table: &[u32], room: usize) -> io::Result<()>
    requires room { room ≤ LARGEST }
{
    let mut register = [FILL; LARGEST];
    match tables::label(table, &mut register[..room]) {
        Ok(n) => println!(rt; "{name}: bytes {n}"),
        Err(refusal) => println!(rt;
            "{name}: refused {} row {}",
            refusal.number(),
            refusal.row()
        ),
    }
}

/// A byte of the worked register that is set, and how many bytes of the register are read.
#[derive(Clone, Copy)]
struct Damage<'a> {
    name: &'a str,
    room: usize,
    at: usize,
    byte: u8,
    ghost inside: { (room ≤ WORKED_BUFFER) × (at < WORKED_BUFFER) },
}

impl<'a> Damage<'a> {
    /// The register is read whole.
    fn new(name: &'a str, at: usize, byte: u8) -> Self
        requires { at < WORKED_BUFFER }
    {
        Damage::within(name, WORKED_SIZE, at, byte)
    }

    fn within(name: &'a str, room: usize, at: usize, byte: u8) -> Self
        requires { (room ≤ WORKED_BUFFER) × (at < WORKED_BUFFER) }
    {
        Damage {
            name,
            room,
            at,
            byte,
        }
    }
}

/// Asks for the places of 13 and 99 in the worked register, sound and with one field or number damaged; the limits of 4,096 entries
/// and depth 63 are tried in tests/c/register_test.c.
fn registers_damaged(rt: &impl Print) -> io::Result<()> {
    let damages = [
        Damage::new("register as labelled", WORKED_SIZE, FILL),
        Damage::within("register in 423 bytes", WORKED_SIZE - 1, WORKED_SIZE, FILL),
        Damage::within("register of 7 bytes", HEADER - 1, WORKED_SIZE, FILL),
        Damage::new("count 0", COUNT, 0),
        Damage::new("count 3", COUNT, 3),
        Damage::within("count 5", WORKED_BUFFER, COUNT, 5),
        Damage::new("second number 1", ZERO, 1),
        Damage::new("identity 0", SECOND + IDENTITY, 0),
        Damage::new("identity twice", SECOND + IDENTITY, 10),
        Damage::new("start with a hole", SECOND + ENTRY_LABEL + START, 0x71),
        Damage::new("start that ends in 1", SECOND + ENTRY_LABEL + START, 0x50),
        Damage::new(
            "start not above the sibling's end",
            THIRD + ENTRY_LABEL + START,
            0x70,
        ),
        Damage::new(
            "end below the last child's end",
            THIRD + ENTRY_LABEL + END,
            0xb8,
        ),
        Damage::new(
            "end not below the parent's end",
            THIRD + ENTRY_LABEL + END,
            0xfc,
        ),
        Damage::new("another parent start", FOURTH + ENTRY_LABEL + PARENT, 0x60),
        Damage::new("no parent start", FOURTH + ENTRY_LABEL + PARENT, 0),
        Damage::new(
            "parent start of the root",
            FIRST + ENTRY_LABEL + PARENT,
            0x58,
        ),
        Damage::new("second root", FIRST + ENTRY_LABEL + END, 0x98),
        Damage::new("tag 77", FIRST + TAG, 77),
    ];
    for damage in damages {
        let mut register = [FILL; WORKED_BUFFER];
        accepted(tables::label(&WORKED, &mut register))?;
        register[damage.at] = damage.byte;
        print!(rt; "{}:", damage.name)?;
        for identity in [13, 99] {
            answered(rt, registers::place(&register[..damage.room], identity))?;
        }
        println!(rt)?;
    }
    Ok(())
}

/// All bytes as runs of equal ones, each in hexadecimal with its length, and a line end.
fn runs(rt: &impl Print, bytes: &[u8]) -> io::Result<()> {
    for run in bytes.chunk_by(|a, b| *a == *b) {
        print!(rt; " {:02x}*{}", run[0], run.len())?;
    }
    println!(rt)
}
