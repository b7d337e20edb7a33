//! Single edits of a register: one entry put in at one of four places, one leaf taken out.
#![tactic(auto)]

ghost use Rattle.std.specs.Prelude.{◌≡◌, true, ◌≤◌, ◌<◌, IfOk, IfErr};
ghost use Rattle.answers.specs.Outcome.{accepted, refused};
ghost use Rattle.codes.specs.Code.{IsCode, longest};
ghost use Rattle.codes.specs.Spread.{digits_of};
ghost use Rattle.identities.specs.Rows.{is_fresh};
ghost use Rattle.trees.specs.Labelled.{starts, ends};
ghost use Rattle.trees.specs.Edit.{is_inside, level_at};
ghost use Rattle.trees.specs.Neighbours.{left_of, right_of};
ghost use Rattle.trees.specs.Search.{is_upward};
ghost use Rattle.registers.specs.Layout.{most_entries};
ghost use Rattle.registers.specs.Entries.{code_at};
ghost use Rattle.registers.specs.Holds.{identities};
ghost use Rattle.registers.specs.Sound.{CodeAt};
ghost use Rattle.registers.specs.Questions.{count_of, lines_of, is_sized, is_register_sound, found_in, tree_in};
ghost use Rattle.edits.specs.Splice.{inserted_bytes, deleted_bytes};
ghost use Rattle.edits.specs.Search.{own_place, parent_from};
ghost use Rattle.edits.specs.Edits.{where_of, target_of, is_parented, has_room, spot_in, put_outcome, insert_outcome, delete_outcome, apply_outcome};
ghost use Rattle.edits.specs.Plans.{bytes_of, name_of, entry_of, AreCodes};

mod search;

use answers::Refusal;
use codes::Code;
use registers::{
    DEEPEST, ENTRY, Entry, Found, MOST, Name, Sound, end_place, entry_place, parent_place,
    start_place,
};
use search::{Downward, Upward};

/// Where an entry is put in, with the identity of its target.
// Each case holds the target, and stays so: a rule of the project keeps a place together with its target.
#[derive(Clone, Copy, Debug, PartialEq, Eq)]
pub enum Place {
    FirstChildOf(u32),
    LastChildOf(u32),
    Before(u32),
    After(u32),
}

/// One edit of a register.
#[derive(Clone, Copy, Debug, PartialEq, Eq)]
pub enum Edit {
    Insert {
        place: Place,
        identity: u32,
        tag: u32,
    },
    Delete {
        target: u32,
    },
}

/// An insertion that is not refused: the place of the new entry, and the entry.
#[derive(Clone, Copy)]
struct Planned {
    place: usize,
    entry: Entry,
}

/// A place of an entry that is there, and the number of that entry.
#[derive(Clone, Copy)]
struct Spot<'a> {
    register: Sound<'a>,
    place: Place,
    at: usize,
    ghost inside: { at < count_of register.reading.bytes.now },
}

/// Where the codes on both sides of a place stand.
#[derive(Clone, Copy, Debug, PartialEq, Eq)]
struct Gap {
    left: usize,
    right: usize,
}

/// Puts one entry in or takes one leaf out, and answers its place. An insertion refuses 5, 6, 7, 3, 10, 4, 8, a deletion 5, 6, 7, 9.
#[tactic(auto, unfolding(crate::specs::Edits::insert_outcome, crate::specs::Edits::delete_outcome))]
pub fn apply(register: &mut [u8], edit: Edit) -> Result<usize, Refusal>
    ensures answer { result ≡ (apply_outcome register.old edit).answer }
    ensures bytes { register.new ≡ (apply_outcome register.old edit).bytes }
{
    let sound = Sound::check(register)?;
    match edit {
        Edit::Insert {
            place,
            identity,
            tag,
        } => {
            let new = plan_insertion(&sound, place, Name { identity, tag })?;
            put_in(register, new.place, &new.entry);
            Ok(new.place)
        }
        Edit::Delete { target } => {
            let at = plan_deletion(&sound, target)?;
            take_out(register, at);
            Ok(at)
        }
    }
}

/// An insertion as a place and an entry. Refuses 6, 7, 3, 10, 4, 8.
#[tactic(auto, unfolding(crate::specs::Edits::insert_outcome))]
fn plan_insertion(register: &Sound, place: Place, name: Name) -> Result<Planned, Refusal>
    ensures ok { IfOk result (λ p. insert_outcome (bytes_of register.now) (where_of place) (target_of place) (name_of name)
        ≡ accepted p.place (inserted_bytes (bytes_of register.now) p.place (entry_of p.entry))) }
    ensures fits { IfOk result (λ p. (has_room (bytes_of register.now) ≡ true)
        × (p.place ≤ count_of (bytes_of register.now)) × AreCodes p.entry) }
    ensures err { IfErr result (λ r. insert_outcome (bytes_of register.now) (where_of place) (target_of place) (name_of name)
        ≡ refused r (bytes_of register.now)) }
{
    let at = register.place_of(place.target())?;
    if !place.is_parented(at) {
        return Err(Refusal::Root);
    }
    let spot = Spot {
        register: *register,
        place,
        at,
    };
    if !fresh(register, name.identity) {
        return Err(Refusal::Identity);
    }
    if (DEEPEST as usize) < spot.level() {
        return Err(Refusal::Depth);
    }
    if !has_room(register) {
        return Err(Refusal::Room);
    }
    spot.plan(name)
}

/// A deletion as the place of the entry. Refuses 6, 7, 9.
#[tactic(auto, unfolding(crate::specs::Edits::delete_outcome))]
fn plan_deletion(register: &Sound, target: u32) -> Result<usize, Refusal>
    ensures ok { IfOk result (λ i. delete_outcome (bytes_of register.now) target ≡ accepted i (deleted_bytes (bytes_of register.now) i)) }
    ensures fits { IfOk result (λ i. i < count_of (bytes_of register.now)) }
    ensures err { IfErr result (λ r. delete_outcome (bytes_of register.now) target ≡ refused r (bytes_of register.now)) }
{
    let at = register.place_of(target)?;
    if at == 0 {
        return Err(Refusal::Root);
    }
    if !search::leaf(register, at) {
        return Err(Refusal::Children);
    }
    Ok(at)
}

/// A code that is no longer than codes may be. Refuses 8.
fn fitting(code: Code) -> Result<Code, Refusal>
    ensures ok { IfOk result (λ fit. (fit ≡ code) × (code.count ≤ longest)) }
    ensures err { IfErr result (λ r. (r ≡ Refusal.CodeLength) × (longest < code.count)) }
{
    if Code::LONGEST < code.len() {
        return Err(Refusal::CodeLength);
    }
    Ok(code)
}

/// Moves the entries from a place on up by one, and leaves the new entry there.
fn put_in(register: &mut [u8], place: usize, entry: &Entry)
    requires sized { is_sized register.old ≡ true }
    requires room { has_room register.old ≡ true }
    requires place { place ≤ count_of register.old }
    requires codes { AreCodes entry.now }
    ensures bytes { register.new ≡ inserted_bytes register.old place (entry_of entry.now) }
{
    let n = registers::count(register);
    register.copy_within(entry_place(place)..entry_place(n), entry_place(place + 1));
    registers::write_entry(register, place, entry);
    registers::write_header(register, n + 1);
}

/// Moves the entries behind a place down by one, and clears what the last leaves.
fn take_out(register: &mut [u8], place: usize)
    requires sized { is_sized register.old ≡ true }
    requires place { place < count_of register.old }
    ensures bytes { register.new ≡ deleted_bytes register.old place }
{
    let n = registers::count(register);
    let last = entry_place(n - 1);
    register.copy_within(entry_place(place + 1)..entry_place(n), entry_place(place));
    register[last..last + ENTRY].fill(0);
    registers::write_header(register, n - 1);
}

/// An identity that is not 0 and no entry's.
#[tactic(auto, using(crate::proofs::OutcomeLaws::freshness))]
fn fresh(register: &Sound, identity: u32) -> bool
    ensures fresh { result ≡ is_fresh identity (identities (lines_of (bytes_of register.now))) }
{
    identity != 0 && matches!(register.reading.find(identity), Found::Nothing)
}

/// Fewer than the most entries, and room for one more.
fn has_room(register: &Sound) -> bool
    ensures room { result ≡ has_room (bytes_of register.now) }
{
    let n = register.reading.count();
    n < MOST && entry_place(n + 1) <= register.reading.bytes.len()
}

impl<'a> Spot<'a> {
    /// The codes of a new entry between its neighbours, and its place. Refuses 8.
    fn plan(&self, name: Name) -> Result<Planned, Refusal>
        requires parented { is_parented (where_of self.now.place) self.now.at ≡ true }
        ensures ok { IfOk result (λ p. put_outcome (bytes_of self.now.register) (name_of name)
            (tree_in (bytes_of self.now.register)) (spot_in (bytes_of self.now.register) (where_of self.now.place) self.now.at)
            ≡ accepted p.place (inserted_bytes (bytes_of self.now.register) p.place (entry_of p.entry))) }
        ensures fits { IfOk result (λ p. (p.place ≤ count_of (bytes_of self.now.register)) × AreCodes p.entry) }
        ensures err { IfErr result (λ r. put_outcome (bytes_of self.now.register) (name_of name)
            (tree_in (bytes_of self.now.register)) (spot_in (bytes_of self.now.register) (where_of self.now.place) self.now.at)
            ≡ refused r (bytes_of self.now.register)) }
    {
        let gap = self.neighbours();
        let right = self.register.reading.code_at(gap.right);
        let start = fitting(codes::step(&self.register.reading.code_at(gap.left), &right))?;
        let end = fitting(codes::step(&start, &right))?;
        let parent = self
            .register
            .reading
            .code_at(self.place.parent_from(self.at));
        Ok(Planned {
            place: search::starts_below(&self.register, gap.right),
            entry: Entry {
                name,
                start,
                end,
                parent,
            },
        })
    }

    /// The neighbours of a place: one is the target's own code, the other is found.
    #[tactic(auto, using(crate::proofs::PlaceLaws::sides))]
    fn neighbours(&self) -> Gap
        requires parented { is_parented (where_of self.now.place) self.now.at ≡ true }
        ensures codes { CodeAt (bytes_of self.now.register) result.left × CodeAt (bytes_of self.now.register) result.right }
        ensures left { code_at (bytes_of self.now.register) result.left ≡ left_of starts ends
            (tree_in (bytes_of self.now.register)) (spot_in (bytes_of self.now.register) (where_of self.now.place) self.now.at) }
        ensures right { code_at (bytes_of self.now.register) result.right ≡ right_of starts ends
            (tree_in (bytes_of self.now.register)) (spot_in (bytes_of self.now.register) (where_of self.now.place) self.now.at) }
    {
        let own = self.place.own_place(self.at);
        if self.place.is_upward() {
            Gap {
                left: own,
                right: search::nearest::<Upward>(&self.register, own),
            }
        } else {
            Gap {
                left: search::nearest::<Downward>(&self.register, own),
                right: own,
            }
        }
    }

    /// The depth of an entry there.
    fn level(&self) -> usize
        ensures level { result ≡ level_at (tree_in (bytes_of self.now.register))
            (spot_in (bytes_of self.now.register) (where_of self.now.place) self.now.at) }
    {
        self.register.depth_at(self.at) + usize::from(self.place.is_inside())
    }
}

impl Place {
    /// The identity of the entry that it is named by.
    fn target(self) -> u32
        ensures target { result ≡ target_of self }
    {
        match self {
            Place::FirstChildOf(target)
            | Place::LastChildOf(target)
            | Place::Before(target)
            | Place::After(target) => target,
        }
    }

    /// Among the children of its target.
    fn is_inside(self) -> bool
        ensures inside { result ≡ is_inside (where_of self) }
    {
        matches!(self, Place::FirstChildOf(_) | Place::LastChildOf(_))
    }

    /// Only before and after the root, entry 0, an entry would have no parent.
    fn is_parented(self, at: usize) -> bool
        ensures parented { result ≡ is_parented (where_of self) at }
    {
        self.is_inside() || 0 < at
    }

    /// The target's own code is the left neighbour, and the other lies upward.
    fn is_upward(self) -> bool
        ensures upward { result ≡ is_upward (where_of self) }
    {
        matches!(self, Place::FirstChildOf(_) | Place::After(_))
    }

    /// Where the target's own code stands that is next to the place.
    fn own_place(self, at: usize) -> usize
        requires most { at ≤ most_entries }
        ensures place { result ≡ own_place (where_of self) at }
    {
        match self {
            Place::FirstChildOf(_) | Place::Before(_) => start_place(at),
            Place::LastChildOf(_) | Place::After(_) => end_place(at),
        }
    }

    /// Where the parent start of an entry at the place is found.
    fn parent_from(self, at: usize) -> usize
        requires most { at ≤ most_entries }
        ensures place { result ≡ parent_from (where_of self) at }
    {
        if self.is_inside() {
            start_place(at)
        } else {
            parent_place(at)
        }
    }
}
