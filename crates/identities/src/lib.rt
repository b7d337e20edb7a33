//! A table of identities: a new one is told from a used one in a few looks.
#![tactic(auto)]

ghost use Rattle.std.specs.Prelude.{◌≡◌, true, suc, ◌*◌, ◌≤◌, ◌<◌, length, get_or, List, [], ℕ, ◌≢◌};
ghost use Rattle.identities.specs.Identities.{is_among, place_count, hash_of, Entering, Holds};
ghost use Rattle.identities.specs.Rows.{is_fresh, earlier, is_all_new};

use std::marker::Model;

/// Twice as many as there are rows at most. A free place holds 0.
// No `Option<u32>`: each place would take 8 bytes, and the stack that plant.h states has no room for 64 KB.
pub const PLACES: usize = 8192;

/// The identities used so far. It stays a table in fixed memory, searched by hand: std's sets need the heap, which the rule of
/// fixed memory forbids, and a sort of the identities took twice as long and more in a trial (60 against 24 to 31 microseconds for 4,096).
#[derive(Drop)]
pub struct Used {
    pub places: [u32; PLACES],
}

impl Model for Used {
    ghost Value = { List ℕ };

    ghost view = { λ u. u.places };
}

impl Used {
    /// No identity is used yet.
    #[inline(always)]
    #[tactic(auto, using(crate::proofs::IdentityLaws::holds_none))]
    pub fn new() -> Self
        ensures held { Holds result [] }
    {
        Used {
            places: [0; PLACES],
        }
    }

    /// The identity of row `i` is not 0 and stands in no row above; then it is entered.
    #[inline(always)]
    pub fn new_at(&mut self, numbers: &[u32], stride: usize, i: usize) -> bool
        requires inside { stride * i < length numbers.now }
        requires held { Holds self.old (earlier stride numbers.now i) }
        ensures fresh { result ≡ is_fresh (get_or numbers.now (stride * i) 0) (earlier stride numbers.now i) }
        ensures held { result ≡ true → Holds self.new (earlier stride numbers.now (suc i)) }
    {
        new_at(numbers, stride, i, &mut self.places)
    }
}

/// The identity of row `i` is not 0 and stands in no row above; then it is entered.
// It stays beside the method of `Used`: it asks only for places that are lent, wherever they lie.
pub fn new_at(numbers: &[u32], stride: usize, i: usize, places: &mut [u32]) -> bool
    requires inside { stride * i < length numbers.now }
    requires held { Holds places.old (earlier stride numbers.now i) }
    ensures fresh { result ≡ is_fresh (get_or numbers.now (stride * i) 0) (earlier stride numbers.now i) }
    ensures held { result ≡ true → Holds places.new (earlier stride numbers.now (suc i)) }
{
    let identity = numbers[stride * i];
    identity != 0
        && match enter(places, identity) {
            Some(new) => new,
            None => !stands_above(numbers, stride, i, identity),
        }
}

/// Enters an identity that is not 0: whether it is new, or `None` where no place is free. An `Option<bool>` says that with
/// no enum of its own: its one caller passes the `bool` on, and searches plainly at `None`.
fn enter(places: &mut [u32], identity: u32) -> Option<bool>
    requires size { length places.old ≡ place_count }
    requires some { identity ≢ 0 }
    ensures entered { Entering places.old identity result places.new }
{
    let start = hash(identity);
    for d in 0..PLACES {
        let i = (start + d) % PLACES;
        let there = places[i];
        // Both ends of a search in one test: a long search took up to twice as long with two, by where its loop came to lie.
        if (there == 0) | (there == identity) {
            places[i] = identity;
            return Some(there == 0);
        }
    }
    None
}

// Where the search for an identity begins: the upper 13 of the 32 bits of a product.
#[inline(always)]
#[tactic(auto, unfolding(crate::specs::Identities::hash_of))]
fn hash(identity: u32) -> usize
    ensures hash { (result ≡ hash_of identity) × (result < place_count) }
{
    (identity.wrapping_mul(2654435761) / 524288) as usize
}

// The plain search for an identity in the rows above row i.
fn stands_above(numbers: &[u32], stride: usize, i: usize, identity: u32) -> bool
    requires inside { stride * i < length numbers.now }
    ensures among { result ≡ is_among identity (earlier stride numbers.now i) }
{
    (0..i).any(|k| identity == numbers[stride * k])
}

/// The numbers are not 0 and all different.
pub fn all_new(identities: &[u32]) -> bool
    ensures new { result ≡ is_all_new identities.now }
{
    let mut used = Used::new();
    for i in 0..identities.len() {
        if !used.new_at(identities, 1, i) {
            return false;
        }
    }
    true
}
