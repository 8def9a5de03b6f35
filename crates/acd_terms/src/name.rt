//! Names of groups and agents, and of those who send requests.

ghost use Rattle.std.specs.Prelude.{◌≡◌, position, not};
ghost use Rattle.acd_terms.specs.Forms.{read_text, is_name_byte, is_requester_byte, IsName, IsRequester};

use crate::short_text::ShortText;
use std::marker::Model;
use thiserror::Error;

/// Why bytes are no name and no requester.
#[derive(Clone, Copy, Debug, PartialEq, Eq, Error)]
pub enum NameFault {
    #[error("no characters")]
    Empty,
    #[error("too many characters")]
    TooLong,
    /// The place of the first byte that may not be there, counted from 0.
    #[error("byte {0} may not stand there")]
    BadCharacter(usize),
}

/// A name of a group or an agent: 1 to 40 characters from U+0020 to U+007E.
#[derive(Clone, Copy, Debug, PartialEq, Eq)]
pub struct Name {
    text: ShortText<40>,
}

impl Model for Name {
    ghost use Rattle.std.specs.Prelude.{ℕ, List};
    ghost use Rattle.acd_terms.specs.Forms.{IsName};

    ghost Value = { List ℕ };

    ghost view = { λ n. n.text };

    ghost invariant = { λ n. IsName n.text };

    ghost inverse = { λ t. record { text = t } };
}

impl Name {
    /// Reads a name.
    #[tactic(auto, unfolding(crate::specs::Forms::read_text))]
    pub fn read(bytes: &[u8]) -> Result<Name, NameFault>
        ensures { result ≡ read_text is_name_byte 40 bytes.now }
    {
        if bytes.is_empty() {
            return Err(NameFault::Empty);
        }
        if bytes.len() > 40 {
            return Err(NameFault::TooLong);
        }
        if let Some(place) = first_unprintable(bytes) {
            return Err(NameFault::BadCharacter(place));
        }
        let text = ShortText::holding(bytes);
        Ok(Name { text })
    }

    /// Its characters.
    pub fn as_bytes(&self) -> &[u8]
        ensures value { result.now ≡ self.now }
        ensures formed { IsName self.now }
    {
        self.text.as_bytes()
    }

    /// Its characters as text. It looks at each of them: [`Self::as_bytes`] does not.
    pub fn as_str(&self) -> &str
        ensures value { result.now ≡ self.now }
        ensures formed { IsName self.now }
    {
        self.text.as_str()
    }
}

/// Who sends requests: 1 to 32 lower-case letters, digits and hyphens. Requesters are equal where their
/// characters are.
#[derive(Clone, Copy, Debug, PartialEq, Eq, PartialOrd, Ord, Hash)]
pub struct Requester {
    text: ShortText<32>,
}

impl Model for Requester {
    ghost use Rattle.std.specs.Prelude.{ℕ, List};
    ghost use Rattle.acd_terms.specs.Forms.{IsRequester};

    ghost Value = { List ℕ };

    ghost view = { λ r. r.text };

    ghost invariant = { λ r. IsRequester r.text };

    ghost inverse = { λ t. record { text = t } };
}

impl Requester {
    /// Reads a requester.
    #[tactic(auto, unfolding(crate::specs::Forms::read_text))]
    pub fn read(bytes: &[u8]) -> Result<Requester, NameFault>
        ensures { result ≡ read_text is_requester_byte 32 bytes.now }
    {
        if bytes.is_empty() {
            return Err(NameFault::Empty);
        }
        if bytes.len() > 32 {
            return Err(NameFault::TooLong);
        }
        if let Some(place) = first_unfit(bytes) {
            return Err(NameFault::BadCharacter(place));
        }
        let text = ShortText::holding(bytes);
        Ok(Requester { text })
    }

    /// Its characters.
    pub fn as_bytes(&self) -> &[u8]
        ensures value { result.now ≡ self.now }
        ensures formed { IsRequester self.now }
    {
        self.text.as_bytes()
    }

    /// Its characters as text. It looks at each of them: [`Self::as_bytes`] does not.
    pub fn as_str(&self) -> &str
        ensures value { result.now ≡ self.now }
        ensures formed { IsRequester self.now }
    {
        self.text.as_str()
    }
}

fn is_name_byte(b: u8) -> bool
    ensures { result ≡ is_name_byte b }
{
    (32..=126).contains(&b)
}

fn is_requester_byte(b: u8) -> bool
    ensures { result ≡ is_requester_byte b }
{
    (b'a'..=b'z').contains(&b) || b.is_ascii_digit() || b == b'-'
}

fn first_unprintable(bytes: &[u8]) -> Option<usize>
    ensures { result ≡ position (λ b. not (is_name_byte b)) bytes.now }
{
    bytes.iter().position(|b| !is_name_byte(*b))
}

fn first_unfit(bytes: &[u8]) -> Option<usize>
    ensures { result ≡ position (λ b. not (is_requester_byte b)) bytes.now }
{
    bytes.iter().position(|b| !is_requester_byte(*b))
}
