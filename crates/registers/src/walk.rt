//! The soundness of a register's entries: an entry is sound when its row of children is, a row when each entry in it is.
ghost use Rattle.std.specs.Prelude.{◌≡◌, true, false, ◌&&◌, [], ◌+◌, ◌≤◌, ◌<◌, MatchOption};
ghost use Rattle.digits.specs.Order.{is_below};
ghost use Rattle.codes.specs.Reading.{is_same};
ghost use Rattle.registers.specs.Layout.{start_place, end_place, parent_place};
ghost use Rattle.registers.specs.Entries.{code_at};
ghost use Rattle.registers.specs.Sound.{is_sound_labels, line_at, is_tree, children_from, entry_from, CodeAt};
ghost use Rattle.registers.specs.Questions.{is_above_entry};

use crate::reading::Reading;
use crate::{DEEPEST, end_place, parent_place, start_place};

/// Entries whose labels are all sound.
// That a number is one of a counted entry stays a clause of the methods: the walk makes the numbers itself, as it goes.
#[derive(Clone, Copy)]
pub(crate) struct Labelled<'a> {
    pub(crate) reading: Reading<'a>,
    pub(crate) ghost labels: { is_sound_labels reading.bytes.now reading.count ≡ true },
}

impl<'a> Labelled<'a> {
    /// The entries, where their labels are sound.
    #[tactic(auto, using(crate::proofs::ReadingLaws::labels_not))]
    fn check(reading: &Reading<'a>) -> Option<Self>
        ensures labels { MatchOption result (is_sound_labels reading.now.bytes.now reading.now.count ≡ false)
            (λ l. l.reading ≡ reading.now) }
    {
        for i in 0..reading.count {
            if !reading.sound_label(i) {
                return None;
            }
        }
        Some(Labelled { reading: *reading })
    }

    /// One root, with an empty parent start, whose children and what lies under them are all other entries.
    #[tactic(auto, using(crate::proofs::ReadingLaws::treed))]
    pub(crate) fn tree(reading: &Reading<'a>) -> bool
        ensures tree { result ≡ is_tree reading.now.bytes.now reading.now.count }
    {
        let Some(labelled) = Self::check(reading) else {
            return false;
        };
        labelled.orphan() && labelled.row(1, 0, 1) == Some(reading.count)
    }

    /// The first entry's parent start is empty.
    fn orphan(&self) -> bool
        ensures orphan { result ≡ is_same (code_at self.now.reading.bytes.now (parent_place 0)) [] }
    {
        codes::is_empty(labels::field(self.reading.bytes, parent_place(0)))
    }

    /// An entry under its parent, between the code at `low` and its parent's end, with its row of children: where the next stands.
    /// A rule of the project keeps the walk as the cycle of `entry` and `row`, with its loop in the row and a depth of at most 63.
    #[cycle(entry_row)]
    fn entry(&self, at: usize, low: usize, parent: usize, depth: u32) -> Option<usize>
        requires places { (at < self.now.reading.count) × (parent < self.now.reading.count) }
        requires low { CodeAt self.now.reading.bytes.now low }
        ensures walked { result ≡ entry_from self.now.reading.bytes.now self.now.reading.count parent depth
            (code_at self.now.reading.bytes.now low) at }
    {
        if depth <= DEEPEST && self.in_place(at, low, parent) {
            self.row(at + 1, at, depth + 1)
        } else {
            None
        }
    }

    /// The row of children of an entry, from an entry on: one that does not start below the parent's end is no child.
    #[cycle(entry_row)]
    fn row(&self, at: usize, parent: usize, depth: u32) -> Option<usize>
        requires places { (at ≤ self.now.reading.count) × (parent < self.now.reading.count) }
        ensures walked { result ≡ children_from self.now.reading.bytes.now self.now.reading.count parent depth
            (code_at self.now.reading.bytes.now (start_place parent)) at }
    {
        let mut low = start_place(parent);
        let mut i = at;
        // No `for`: each step goes on behind the entry's own row.
        while i < self.reading.count {
            if !self.reading.fields_below(start_place(i), end_place(parent)) {
                return Some(i);
            }
            let next = self.entry(i, low, parent, depth)?;
            low = end_place(i);
            i = next;
        }
        Some(i)
    }

    /// Above the code at `low`, its end below its parent's, with its parent's start.
    fn in_place(&self, at: usize, low: usize, parent: usize) -> bool
        requires places { (at < self.now.reading.count) × (parent < self.now.reading.count) }
        requires low { CodeAt self.now.reading.bytes.now low }
        ensures place { result ≡ (is_below (code_at self.now.reading.bytes.now low) (code_at self.now.reading.bytes.now (start_place at))
            && (is_below (code_at self.now.reading.bytes.now (end_place at)) (code_at self.now.reading.bytes.now (end_place parent))
            && is_same (code_at self.now.reading.bytes.now (parent_place at)) (code_at self.now.reading.bytes.now (start_place parent)))) }
    {
        self.reading.fields_below(low, start_place(at))
            && self.reading.fields_below(end_place(at), end_place(parent))
            && self
                .reading
                .fields_same(parent_place(at), start_place(parent))
    }

    /// Entry i is above entry j.
    // Not by `Label::is_above`: the labels were checked once, and a `Label` would be read and checked again for each pair.
    #[inline(always)]
    pub(crate) fn above(&self, i: usize, j: usize) -> bool
        requires places { (i < self.now.reading.count) × (j < self.now.reading.count) }
        ensures above { result ≡ is_above_entry (line_at self.now.reading.bytes.now i) (line_at self.now.reading.bytes.now j) }
    {
        self.reading.fields_below(start_place(i), start_place(j))
            && self.reading.fields_below(end_place(j), end_place(i))
    }
}
