//! Lists that contracts see as their members in order.

ghost use Rattle.std.specs.Prelude.{◌≡◌, ◌↔◌, [], length, IsTrue};
ghost use Rattle.std.specs.Slice.Iter.{iter_rest};
ghost use Rattle.std.specs.Cmp.Lexicographic.{pointwise, lists_per, lists_equiv};

use std::alloc::AllocError;
use std::marker::Model;
use std::slice;

/// A list, seen as its members in order. It is made of a `Vec`, and takes no memory but for its
/// clone.
#[derive(Debug, Drop)]
pub struct Listed<T> {
    members: Vec<T>,
}

impl<T> Model for Listed<T> {
    ghost use Rattle.std.specs.Prelude.{List};

    ghost Value = { List T };

    ghost view = { λ l. l.members.items };
}

impl<T> Listed<T> {
    pub fn new(members: Vec<T>) -> Self
        ensures { result ≡ members.items }
    {
        Listed { members }
    }

    pub fn as_slice(&self) -> &[T]
        ensures { result.now ≡ self.now }
    {
        &self.members
    }

    pub fn iter(&self) -> slice::Iter<'_, T>
        ensures { iter_rest result ≡ self.now }
    {
        self.members.iter()
    }

    pub fn len(&self) -> usize
        ensures { result ≡ length self.now }
    {
        self.members.len()
    }

    pub fn is_empty(&self) -> bool
        ensures { IsTrue result ↔ (self.now ≡ []) }
    {
        self.members.is_empty()
    }
}

impl<T: PartialEq> PartialEq for Listed<T> {
    ghost eq = { pointwise T.eq };

    ghost laws = { lists_per T.laws };

    fn eq(&self, other: &Listed<T>) -> bool {
        self.as_slice() == other.as_slice()
    }
}

impl<T: Eq> Eq for Listed<T> {
    ghost laws = { lists_equiv T.Eq.laws };
}

impl<'a, T> IntoIterator for &'a Listed<T> {
    type Item = &'a T;

    type IntoIter = slice::Iter<'a, T>;

    ghost into_iter_gives = { λ list it. iter_rest it ≡ list.now };

    fn into_iter(self) -> Self::IntoIter {
        self.iter()
    }
}

impl<T: Copy> Clone for Listed<T> {
    ghost is_clone = { λ list clone. clone ≡ list };

    fn clone(&self) -> Result<Listed<T>, AllocError> {
        let alloc = *self.members.allocator();
        Ok(Listed::new(self.members.iter().copied().collect(alloc)?))
    }
}
