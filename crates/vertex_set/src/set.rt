ghost use Rattle.std.specs.Prelude.{◌≡◌, ℕ, ◌-◌, ◌^◌, ◌<◌, ◌↔◌, min, not, IsTrue, IfOk, IfErr, OnOk, OnErr};
ghost use Rattle.vertex_set.specs.Sets.{Limited, Same, none, below, size, with_vertex, without_vertex, ◌∩◌, ◌∖◌, ◌⊆◌};
ghost use Rattle.vertex_set.specs.Words.{member};
ghost use Rattle.vertex_set.specs.Refusals.{FirstBroken, refusal, Inside};

use crate::error::SetError;
use std::array;

pub(crate) mod members;

// A set of vertices 0 to 1,023: bit v % 64 of word v / 64 says whether v is a member. (It has no
// model: clauses and theorems speak of the test of membership, which cannot be a model's value.)
#[derive(Clone, Copy, PartialEq, Eq, Debug)]
pub struct VertexSet {
    // Words, and no set of the library's: a set is copied, and needs no heap. The count stands
    // beside them, since a set always knows how many members it has.
    words: [u64; 16],
    len: u16,
    ghost limited: { Limited (member words) },
    ghost counted: { len ≡ size (member words) },
}

impl VertexSet {
    ghost use Rattle.vertex_set.specs.Members.{members};

    // The set without members.
    pub fn new() -> VertexSet
        ensures { Same (members result) none }
    {
        VertexSet {
            words: [0; 16],
            len: 0,
        }
    }

    // All vertices below n, of those that a set can have: 0 to 1,023.
    pub fn below(n: u16) -> VertexSet
        ensures { Same (members result) (below (min n 1024)) }
    {
        let len = n.min(1024);
        let words = array::from_fn(|i| low_bits(len.saturating_sub(64 * i as u16)));
        VertexSet { words, len }
    }

    // Whether v is a member; a vertex of 1,024 or more never is.
    pub fn contains(&self, v: u16) -> bool
        ensures { result ≡ members self.now v }
    {
        let word = usize::from(v / 64);
        word < 16 && self.words[word] >> (v % 64) & 1 == 1
    }

    // Puts v in, and says whether it was not a member before.
    pub fn insert(&mut self, v: u16) -> Result<bool, SetError>
        ensures fresh { IfOk result (λ fresh. fresh ≡ not (members self.old v)) }
        ensures within { OnOk result (v < 1024) }
        ensures after { OnOk result (Same (members self.new) (with_vertex (members self.old) v)) }
        ensures err { IfErr result (FirstBroken refusal (Inside v)) }
        ensures unchanged { OnErr result (self.new ≡ self.old) }
    {
        if v >= 1024 {
            return Err(SetError::OutOfRange);
        }
        let fresh = !self.contains(v);
        if fresh {
            self.words[usize::from(v / 64)] ^= 1 << (v % 64);
            self.len += 1;
        }
        Ok(fresh)
    }

    // Takes v out, and says whether it was a member.
    pub fn remove(&mut self, v: u16) -> bool
        ensures was { result ≡ members self.old v }
        ensures after { Same (members self.new) (without_vertex (members self.old) v) }
    {
        let member = self.contains(v);
        if member {
            self.words[usize::from(v / 64)] ^= 1 << (v % 64);
            self.len -= 1;
        }
        member
    }

    // The members of both sets.
    pub fn intersection(&self, other: &VertexSet) -> VertexSet
        ensures { Same (members result) (members self.now ∩ members other.now) }
    {
        VertexSet::of_words(array::from_fn(|i| self.words[i] & other.words[i]))
    }

    // The members of this set that are not in the other.
    pub fn difference(&self, other: &VertexSet) -> VertexSet
        ensures { Same (members result) (members self.now ∖ members other.now) }
    {
        VertexSet::of_words(array::from_fn(|i| self.words[i] & !other.words[i]))
    }

    // Whether each member is one of the other set's too.
    pub fn is_subset(&self, other: &VertexSet) -> bool
        ensures { IsTrue result ↔ (members self.now ⊆ members other.now) }
    {
        self.difference(other).is_empty()
    }

    // Whether there is no member.
    pub fn is_empty(&self) -> bool
        ensures { IsTrue result ↔ (size (members self.now) ≡ 0) }
    {
        self.len == 0
    }

    // The set that the words stand for.
    fn of_words(words: [u64; 16]) -> VertexSet
        ensures { result.words ≡ words }
    {
        let len = words.iter().map(|word| word.count_ones() as u16).sum();
        VertexSet { words, len }
    }
}

// The word with the lowest k bits set, or with all of its 64.
fn low_bits(k: u16) -> u64
    ensures { result ≡ 2 ^ (min k 64) - 1 }
{
    if k < 64 { (1 << k) - 1 } else { u64::MAX }
}
