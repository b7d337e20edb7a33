//! Digits below 4 packed four to a byte, from the top down.
ghost use Rattle.std.specs.Prelude.{◌≡◌};
ghost use Rattle.codes.specs.Packer.{nothing, begun as begun_of, pushed, Open, Pushable};

/// The byte that is being filled, and how many digits were pushed.
// Nothing compares or prints it. It stays a record of the two, pushed by value, with one thin function over `&mut`: the rule for packing names it so.
#[derive(Clone, Copy)]
pub struct Packer {
    pub pending: u8,
    pub count: usize,
}

// The byte starts anew behind each fourth digit.
#[inline(always)]
#[tactic(auto, using(crate::proofs::PackerLaws::beginning))]
fn begun(place: usize, pending: u8) -> u8
    ensures { result ≡ begun_of place pending }
{
    if place == 0 { 0 } else { pending }
}

impl Packer {
    /// Before the first digit.
    #[inline(always)]
    pub fn new() -> Self
        ensures nothing { result ≡ nothing }
    {
        Packer {
            pending: 0,
            count: 0,
        }
    }

    /// One digit further: it takes the two highest bits that are free.
    #[inline(always)]
    pub fn push(self, digit: u8) -> Packer
        requires pushable { Pushable self digit }
        ensures pushed { result ≡ pushed self digit }
        ensures open { Open result }
    {
        let place = self.count % 4;
        Packer {
            pending: begun(place, self.pending) + (digit << (6 - place * 2)),
            count: self.count + 1,
        }
    }

    /// The same in place.
    #[inline(always)]
    pub fn push_in(&mut self, digit: u8)
        requires pushable { Pushable self.old digit }
        ensures pushed { self.new ≡ pushed self.old digit }
        ensures open { Open self.new }
    {
        *self = self.push(digit);
    }
}

/// The byte that is being filled after one more digit.
pub fn byte_after(pending: u8, count: usize, digit: u8) -> u8
    requires pushable { Pushable (record { pending = pending; count = count }) digit }
    ensures byte { result ≡ (pushed (record { pending = pending; count = count }) digit).pending }
{
    let mut p = Packer { pending, count };
    p.push_in(digit);
    p.pending
}
