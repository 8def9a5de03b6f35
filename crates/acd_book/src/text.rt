//! Text that contracts see as its bytes.

ghost use Rattle.std.specs.Prelude.{◌≡◌, string_bytes, bytes_eq};
ghost use Rattle.std.specs.Cmp.{partial_equiv_from_equiv};
ghost use Rattle.std.specs.Cmp.Lexicographic.{nat_list_eq_equiv};

use std::alloc::AllocError;
use std::marker::Model;

/// A text, seen as its bytes.
#[derive(Debug, Drop)]
pub struct Text {
    characters: String,
}

impl Model for Text {
    ghost use Rattle.std.specs.Prelude.{ℕ, List, string_bytes};

    ghost Value = { List ℕ };

    ghost view = { λ t. string_bytes t.characters };
}

impl Text {
    /// It takes no memory.
    pub fn new(characters: String) -> Self
        ensures { result ≡ string_bytes characters }
    {
        Text { characters }
    }

    pub fn as_str(&self) -> &str
        ensures { result.now ≡ self.now }
    {
        self.characters.as_str()
    }
}

impl Clone for Text {
    ghost is_clone = { λ text clone. clone ≡ text };

    fn clone(&self) -> Result<Text, AllocError> {
        Ok(Text {
            characters: self.characters.clone()?,
        })
    }
}

impl PartialEq for Text {
    ghost eq = { bytes_eq };

    ghost laws = { partial_equiv_from_equiv nat_list_eq_equiv };

    fn eq(&self, other: &Text) -> bool {
        self.as_str() == other.as_str()
    }
}

impl Eq for Text {
    ghost laws = { nat_list_eq_equiv };
}
