// The members: how many there are, and one after another.

ghost use Rattle.std.specs.Prelude.{◌≡◌, IfOk, MatchOption};
ghost use Rattle.std.specs.Iterator.{YieldsFirst, item_count};
ghost use Rattle.vertex_set.specs.Sets.{size};
ghost use Rattle.vertex_set.specs.Lists.{Lists, NoneFrom, FirstFrom, listed};
ghost use Rattle.vertex_set.specs.Members.{members, members_left};

use super::VertexSet;
use std::alloc::{AllocError, Global};

// The members of a set from a vertex on, in ascending order.
#[derive(Debug, Drop)]
pub struct Members<'a> {
    set: &'a VertexSet,
    from: u16,
}

impl Iterator for Members<'_> {
    type Item = u16;

    ghost next_gives = { YieldsFirst members_left };

    ghost remaining = { item_count members_left };

    fn next(&mut self) -> Option<u16> {
        let v = self.set.first_from(self.from)?;
        self.from = v + 1;
        Some(v)
    }
}

impl VertexSet {
    // The number of members.
    pub fn len(&self) -> u16
        ensures { result ≡ size (members self.now) }
    {
        self.len
    }

    // The smallest member that is at least v.
    pub fn first_from(&self, v: u16) -> Option<u16>
        ensures { MatchOption result
            (NoneFrom (members self.now) v)
            (FirstFrom (members self.now) v) }
    {
        let start = usize::from(v / 64);
        let rest = self.words.get(start)? >> (v % 64);
        if rest != 0 {
            return Some(v + rest.trailing_zeros() as u16);
        }
        let i = (start + 1..16).find(|i| self.words[*i] != 0)?;
        Some(64 * i as u16 + self.words[i].trailing_zeros() as u16)
    }

    // The members, one after another, in ascending order.
    pub fn iter(&self) -> Members<'_>
        ensures left { members_left result ≡ listed (members self.now) 0 }
        ensures all { Lists (members self.now) (members_left result) }
    {
        Members { set: self, from: 0 }
    }

    // The members, ascending.
    pub fn to_vec(&self, heap: Global) -> Result<Vec<u16>, AllocError>
        ensures { IfOk result (λ list. Lists (members self.now) list.items) }
    {
        self.iter().collect(heap)
    }
}
