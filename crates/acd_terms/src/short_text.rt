//! Text of a few characters, held in place.

ghost use Rattle.std.specs.Prelude.{◌≡◌, ◌≤◌, length, true, Some, bytes_eq, refl};
ghost use Rattle.std.specs.List.{list_all};
ghost use Rattle.std.specs.Char.{is_ascii};
ghost use Rattle.std.specs.Ordering.{nat_cmp};
ghost use Rattle.std.specs.Hash as fed;
ghost use Rattle.std.specs.Cmp.{partial_equiv_from_equiv};
ghost use Rattle.std.specs.Cmp.Lexicographic.{slice_cmp, nat_list_eq_equiv, nat_list_cmp_total, texts_po, texts_ties};
ghost use Rattle.std.specs.Cmp.Rules.{hashing};
ghost use Rattle.std.proofs.Common.{rules};

use std::cmp::Ordering;
use std::hash::{Hash, Hasher};
use std::marker::Model;
use std::str;

/// At most `N` characters of ASCII. It takes no other memory.
#[derive(Clone, Copy, Debug)]
pub struct ShortText<const N: usize> {
    cells: [u8; N],
    len: usize,
}

impl<const N: usize> Model for ShortText<N> {
    ghost use Rattle.std.specs.Prelude.{ℕ, List, take, ◌++◌, ◌-◌, length, replicate};
    ghost use Rattle.acd_terms.specs.ShortText.{IsHeld, cells-inverse, len-inverse};

    ghost Value = { List ℕ };

    ghost view = { λ t. take t.len t.cells };

    ghost invariant = { λ t. IsHeld N t.cells t.len };

    ghost inverse = { λ text. record { cells = text ++ replicate (N - length text) 0; len = length text } };

    ghost inverse_ok = { λ t h i. record {
      cells = cells-inverse N t.cells t.len h i;
      len = len-inverse N t.cells t.len h i;
    } };
}

impl<const N: usize> ShortText<N> {
    /// Holds the bytes.
    pub(crate) fn holding(bytes: &[u8]) -> Self
        requires short { length bytes.now ≤ N }
        requires ascii { list_all is_ascii bytes.now ≡ true }
        ensures { result ≡ bytes.now }
    {
        let mut cells = [0; N];
        for (place, byte) in bytes.iter().enumerate() {
            cells[place] = *byte;
        }
        ShortText {
            cells,
            len: bytes.len(),
        }
    }

    /// Its characters.
    pub fn as_bytes(&self) -> &[u8]
        ensures text { result.now ≡ self.now }
        ensures ascii { list_all is_ascii self.now ≡ true }
    {
        &self.cells[..self.len]
    }

    /// Its characters as text.
    pub fn as_str(&self) -> &str
        ensures { result.now ≡ self.now }
    {
        str::from_utf8(self.as_bytes()).unwrap()
    }
}

impl<const N: usize> PartialEq for ShortText<N> {
    ghost eq = { bytes_eq };

    ghost laws = { partial_equiv_from_equiv nat_list_eq_equiv };

    fn eq(&self, other: &ShortText<N>) -> bool {
        self.as_bytes() == other.as_bytes()
    }
}

impl<const N: usize> Eq for ShortText<N> {
    ghost laws = { nat_list_eq_equiv };
}

impl<const N: usize> PartialOrd for ShortText<N> {
    ghost partial_cmp = { λ a b. Some (slice_cmp nat_cmp a b) };

    ghost laws = { texts_po };

    fn partial_cmp(&self, other: &ShortText<N>) -> Option<Ordering> {
        Some(self.cmp(other))
    }
}

impl<const N: usize> Ord for ShortText<N> {
    ghost cmp = { slice_cmp nat_cmp };

    ghost total = { nat_list_cmp_total };

    ghost matches_partial_cmp = { λ a b. refl };

    ghost matches_eq = { texts_ties };

    fn cmp(&self, other: &ShortText<N>) -> Ordering {
        self.as_bytes().cmp(other.as_bytes())
    }
}

// As a text is hashed: its characters in one write, and a byte that no character has.
impl<const N: usize> Hash for ShortText<N> {
    ghost hash_input = { λ a. fed.str a };

    ghost respects_eq = { Prim.search (hashing, rules) };

    fn hash<H: Hasher>(&self, state: &mut H) {
        state.write(self.as_bytes());
        state.write_u8(0xff);
    }
}
