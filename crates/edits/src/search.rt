//! Where an insertion goes: its neighbours along the tour, and how many entries start before it; and whether an entry has children.
ghost use Rattle.std.specs.Prelude.{◌≡◌, Bool, true, false, ◌≤◌, ◌<◌};
ghost use Rattle.trees.specs.Edit.{is_leaf};
ghost use Rattle.trees.specs.Search.{is_toward, closer as closer_of, outermost, nearest as nearest_of, leading};
ghost use Rattle.registers.specs.Entries.{code_at};
ghost use Rattle.edits.specs.Search.{outer_place};
ghost use Rattle.edits.specs.Plans.{bytes_of};
ghost use Rattle.registers.specs.Sound.{line_at, CodeAt};
ghost use Rattle.registers.specs.Questions.{count_of, lines_of, tree_in};

use registers::{Sound, end_place, start_place};

/// Which way a search for a neighbour goes along the tour. It is a type, so that no step of the search asks for it.
pub(crate) trait Direction {
    ghost up: { Bool };

    /// Where the search begins: at the first entry's end, or its start.
    fn outer_place() -> usize
        ensures place { result ≡ outer_place up };

    /// The code at x comes before the one at y.
    fn toward(register: &Sound, x: usize, y: usize) -> bool
        requires codes { CodeAt (bytes_of register.now) x × CodeAt (bytes_of register.now) y }
        ensures toward { result ≡ is_toward up (code_at (bytes_of register.now) x) (code_at (bytes_of register.now) y) };
}

/// From a left neighbour to the right one.
pub(crate) enum Upward {}

/// From a right neighbour to the left one.
pub(crate) enum Downward {}

impl Direction for Upward {
    ghost up = { true };

    fn outer_place() -> usize {
        end_place(0)
    }

    fn toward(register: &Sound, x: usize, y: usize) -> bool {
        register.reading.fields_below(x, y)
    }
}

impl Direction for Downward {
    ghost up = { false };

    fn outer_place() -> usize {
        start_place(0)
    }

    fn toward(register: &Sound, x: usize, y: usize) -> bool {
        register.reading.fields_below(y, x)
    }
}

/// Where the code of all entries stands that is nearest to the one at `from`, in a direction.
pub(crate) fn nearest<D: Direction>(register: &Sound, from: usize) -> usize
    requires from { CodeAt (bytes_of register.now) from }
    ensures code { CodeAt (bytes_of register.now) result }
    ensures nearest { code_at (bytes_of register.now) result
        ≡ nearest_of D.up (code_at (bytes_of register.now) from) (outermost D.up (line_at (bytes_of register.now) 0))
        (lines_of (bytes_of register.now)) }
{
    let mut best = D::outer_place();
    let n = register.reading.count();
    for i in 0..n {
        best = closer::<D>(register, from, best, start_place(i));
        best = closer::<D>(register, from, best, end_place(i));
    }
    best
}

/// The code at `at` where it lies between the one at `from` and the best so far, else the best.
fn closer<D: Direction>(register: &Sound, from: usize, best: usize, at: usize) -> usize
    requires from { CodeAt (bytes_of register.now) from }
    requires best { CodeAt (bytes_of register.now) best }
    requires at { CodeAt (bytes_of register.now) at }
    ensures code { CodeAt (bytes_of register.now) result }
    ensures closer { code_at (bytes_of register.now) result
        ≡ closer_of D.up (code_at (bytes_of register.now) from) (code_at (bytes_of register.now) best)
        (code_at (bytes_of register.now) at) }
{
    if D::toward(register, from, at) && D::toward(register, at, best) {
        at
    } else {
        best
    }
}

/// How many entries start below the code at a place.
pub(crate) fn starts_below(register: &Sound, at: usize) -> usize
    requires code { CodeAt (bytes_of register.now) at }
    ensures starts { result ≡ leading (code_at (bytes_of register.now) at) (lines_of (bytes_of register.now)) }
    ensures most { result ≤ count_of (bytes_of register.now) }
{
    let n = register.reading.count();
    for i in 0..n {
        if !register.reading.fields_below(start_place(i), at) {
            return i;
        }
    }
    n
}

/// An entry without children is the last to start below its end.
pub(crate) fn leaf(register: &Sound, i: usize) -> bool
    requires place { i < count_of (bytes_of register.now) }
    ensures leaf { result ≡ is_leaf i (tree_in (bytes_of register.now)) }
{
    starts_below(register, end_place(i)) == i + 1
}
