//! A register that is read: bytes in which all entries stand that they count, and such bytes that were found to be sound.
ghost use Rattle.std.specs.Prelude.{◌≡◌, true, false, ◌<◌, MatchOption, MatchResult, IfOk, IfErr};
ghost use Rattle.digits.specs.Order.{is_below};
ghost use Rattle.codes.specs.Reading.{is_same};
ghost use Rattle.codes.specs.Spread.{Held, Short};
ghost use Rattle.identities.specs.Rows.{is_all_new};
ghost use Rattle.registers.specs.Layout.{HasPlace};
ghost use Rattle.registers.specs.Entries.{code_at};
ghost use Rattle.registers.specs.Holds.{identities};
ghost use Rattle.registers.specs.Sound.{line_at, is_sound_label, HasEntries, CodeAt, SideAt};
ghost use Rattle.registers.specs.Questions.{count_of, lines_of, is_sized, is_register_sound, found_in, depth_in};
ghost use Rattle.answers.specs.declared.Refusal.{Refusal};
ghost use Rattle.registers.specs.declared.Found.{Found};

use crate::walk::Labelled;
use crate::{
    ENTRY_LABEL, Found, HEADER, IDENTITY, MOST, ZERO, code_at, count, entry_place, fields_below,
};
use answers::Refusal;
use codes::Code;
use labels::LABEL;

/// Bytes whose count is 1 to 4,096, whose second number is zero, and in which all counted entries stand.
#[derive(Clone, Copy)]
pub struct Reading<'a> {
    pub bytes: &'a [u8],
    pub(crate) count: usize,
    pub ghost sized: { is_sized bytes.now ≡ true },
    pub ghost counted: { count ≡ count_of bytes.now },
    pub ghost some: { 0 < count },
    pub ghost entries: { HasEntries bytes.now count },
}

impl<'a> Reading<'a> {
    /// The register in some bytes, where they have its size.
    pub fn open(bytes: &'a [u8]) -> Option<Self>
        ensures sized { MatchOption result (is_sized bytes.now ≡ false) (λ r. r.bytes.now ≡ bytes.now) }
    {
        if sized(bytes) {
            Some(Reading {
                bytes,
                count: count(bytes),
            })
        } else {
            None
        }
    }

    /// The number of entries.
    #[inline(always)]
    pub fn count(&self) -> usize
        ensures count { result ≡ count_of self.now.bytes.now }
    {
        self.count
    }

    /// The identity of entry i.
    #[tactic(auto, using(crate::proofs::QuestionLaws::line_identity))]
    #[inline(always)]
    pub fn identity(&self, i: usize) -> u32
        requires place { i < count_of self.now.bytes.now }
        ensures identity { result ≡ (line_at self.now.bytes.now i).name.identity }
    {
        numbers::read_u32(self.bytes, entry_place(i) + IDENTITY)
    }

    /// Where an identity stands among the entries.
    #[tactic(auto, using(crate::proofs::QuestionLaws::finds))]
    pub fn find(&self, identity: u32) -> Found
        ensures found { result ≡ found_in self.now.bytes.now identity }
    {
        for i in 0..self.count {
            if self.identity(i) == identity {
                return Found::At(i);
            }
        }
        Found::Nothing
    }

    /// The identities are not 0 and all different.
    #[tactic(auto, using(crate::proofs::QuestionLaws::identity_next))]
    pub(crate) fn new_identities(&self) -> bool
        ensures new { result ≡ is_all_new (identities (lines_of self.now.bytes.now)) }
    {
        let mut all = [0u32; MOST];
        // By number: a `zip` with the slots would count beside it.
        for i in 0..self.count {
            all[i] = self.identity(i);
        }
        identities::all_new(&all[..self.count])
    }

    /// The label of entry i is sound.
    pub(crate) fn sound_label(&self, i: usize) -> bool
        requires place { HasPlace self.now.bytes.now i }
        ensures sound { result ≡ is_sound_label self.now.bytes.now i }
    {
        let at = entry_place(i) + ENTRY_LABEL;
        labels::sound(&self.bytes[at..at + LABEL])
    }

    /// The code of a field, spread out.
    #[inline(always)]
    pub fn code_at(&self, at: usize) -> Code
        requires code { CodeAt self.now.bytes.now at }
        ensures held { Held result (code_at self.now.bytes.now at) }
        ensures short { Short result }
    {
        code_at(self.bytes, at)
    }

    /// The code of one field is below that of another.
    #[inline(always)]
    pub fn fields_below(&self, x: usize, y: usize) -> bool
        requires codes { CodeAt self.now.bytes.now x × CodeAt self.now.bytes.now y }
        ensures below { result ≡ is_below (code_at self.now.bytes.now x) (code_at self.now.bytes.now y) }
    {
        fields_below(self.bytes, x, y)
    }

    /// Two fields, each of a code or empty, hold the same.
    // Not one with `fields_below`: a line each, and this one asks less of its fields.
    #[tactic(auto, using(crate::proofs::SoundLaws::sides_same))]
    pub(crate) fn fields_same(&self, x: usize, y: usize) -> bool
        requires sides { SideAt self.now.bytes.now x × SideAt self.now.bytes.now y }
        ensures same { result ≡ is_same (code_at self.now.bytes.now x) (code_at self.now.bytes.now y) }
    {
        codes::same(labels::field(self.bytes, x), labels::field(self.bytes, y))
    }
}

/// A sound register.
#[derive(Clone, Copy)]
pub struct Sound<'a> {
    pub reading: Reading<'a>,
    pub ghost sound: { is_register_sound reading.bytes.now ≡ true },
}

impl<'a> Sound<'a> {
    /// The register in some bytes, where they are one. Refuses 5.
    #[tactic(auto, using(crate::proofs::ReadingLaws::checked))]
    pub fn check(bytes: &'a [u8]) -> Result<Self, Refusal>
        ensures sound { MatchResult result (λ s. s.reading.bytes.now ≡ bytes.now)
            (λ refusal. (refusal ≡ Refusal.Register) × (is_register_sound bytes.now ≡ false)) }
    {
        match Reading::open(bytes) {
            Some(reading) if reading.new_identities() && Labelled::tree(&reading) => {
                Ok(Sound { reading })
            }
            _ => Err(Refusal::Register),
        }
    }

    /// The number of entries above the one at a place.
    #[tactic(auto, using(crate::proofs::QuestionLaws::depth_next))]
    pub fn depth_at(&self, place: usize) -> usize
        requires place { place < count_of self.now.reading.bytes.now }
        ensures depth { result ≡ depth_in (line_at self.now.reading.bytes.now place) (lines_of self.now.reading.bytes.now) }
    {
        let labelled = self.labelled();
        let mut depth = 0;
        for i in 0..self.reading.count {
            depth += usize::from(labelled.above(i, place));
        }
        depth
    }

    /// The place of the entry with an identity. Refuses 6.
    pub fn place_of(&self, identity: u32) -> Result<usize, Refusal>
        ensures ok { IfOk result (λ i. (found_in self.now.reading.bytes.now identity ≡ Found.At i)
            × (i < count_of self.now.reading.bytes.now)) }
        ensures err { IfErr result (λ r. (r ≡ Refusal.Target) × (found_in self.now.reading.bytes.now identity ≡ Found.Nothing)) }
    {
        // `Found` and `let else` stay: the lookup's own enum is kept by a rule of the project.
        let Found::At(place) = self.reading.find(identity) else {
            return Err(Refusal::Target);
        };
        Ok(place)
    }

    /// A sound register has sound labels.
    #[tactic(auto, using(crate::proofs::ReadingLaws::all_sound))]
    fn labelled(&self) -> Labelled<'a>
        ensures reading { result.reading ≡ self.now.reading }
    {
        Labelled {
            reading: self.reading,
        }
    }
}

/// The count is 1 to 4,096, the second number zero, and all counted entries stand in the buffer.
fn sized(bytes: &[u8]) -> bool
    ensures sized { result ≡ is_sized bytes.now }
{
    if bytes.len() < HEADER {
        return false;
    }
    let n = count(bytes);
    1 <= n && n <= MOST && entry_place(n) <= bytes.len() && numbers::read_u32(bytes, ZERO) == 0
}
