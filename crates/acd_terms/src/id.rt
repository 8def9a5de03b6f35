//! Identifiers of devices and agents.

ghost use Rattle.std.specs.Prelude.{◌≡◌, ◌≤◌, length, position, true, IfOk};
ghost use Rattle.std.specs.List.{list_all};
ghost use Rattle.std.specs.Char.{is_ascii, is_ascii_digit};
ghost use Rattle.acd_terms.specs.Forms.{read_id, id_with, is_number_of, number_of, digits_of, device_digits, agent_digits, is_not_digit, IsNumberOf};

use crate::short_text::ShortText;
use itoa::Buffer;
use std::marker::Model;
use thiserror::Error;

/// Why bytes are no identifier.
#[derive(Clone, Copy, Debug, PartialEq, Eq, Error)]
pub enum IdFault {
    #[error("no digits")]
    Empty,
    #[error("too many digits")]
    TooLong,
    /// The place of the first byte that is no digit, counted from 0.
    #[error("no digit at byte {0}")]
    NotDigit(usize),
}

/// A device: 1 to 15 digits, held as the value of the digit 1 followed by them. A group, a station and an external
/// caller are devices. The order of devices is that of these numbers: `7`, `07`, `99`, `100`.
#[derive(Clone, Copy, Debug, PartialEq, Eq, PartialOrd, Ord, Hash)]
pub struct DeviceId {
    value: u64,
}

impl Model for DeviceId {
    ghost use Rattle.std.specs.Prelude.{ℕ};
    ghost use Rattle.acd_terms.specs.Forms.{IsNumberOf, device_digits};

    ghost Value = { ℕ };

    ghost view = { λ d. d.value };

    ghost invariant = { λ d. IsNumberOf device_digits d.value };

    ghost inverse = { λ n. record { value = n } };
}

/// The value of cells that hold no device: the device of the one digit 0.
pub(crate) const FILLER: DeviceId = DeviceId { value: 10 };

impl DeviceId {
    /// Reads the digits of a device.
    pub fn read(bytes: &[u8]) -> Result<DeviceId, IdFault>
        ensures { result ≡ read_id device_digits bytes.now }
    {
        let value = read_number(bytes, 15)?;
        Ok(DeviceId { value })
    }

    /// The device of a number, as [`Self::number`] gives it.
    #[tactic(auto, unfolding(crate::specs::Forms::id_with))]
    pub fn from_number(number: u64) -> Option<DeviceId>
        ensures { result ≡ id_with device_digits number }
    {
        if is_number_of(number, 15) {
            Some(DeviceId { value: number })
        } else {
            None
        }
    }

    /// The number that gives the order.
    pub fn number(self) -> u64
        ensures value { result ≡ self }
        ensures formed { IsNumberOf device_digits self }
    {
        self.value
    }

    /// Its digits.
    pub fn text(self) -> ShortText<15>
        ensures { result ≡ digits_of self }
    {
        let mut buffer = Buffer::new();
        let digits = digits_after_one(self.value, &mut buffer);
        ShortText::holding(digits)
    }
}

/// An agent: 1 to 9 digits, held as the value of the digit 1 followed by them.
#[derive(Clone, Copy, Debug, PartialEq, Eq, PartialOrd, Ord, Hash)]
pub struct AgentId {
    value: u64,
}

impl Model for AgentId {
    ghost use Rattle.std.specs.Prelude.{ℕ};
    ghost use Rattle.acd_terms.specs.Forms.{IsNumberOf, agent_digits};

    ghost Value = { ℕ };

    ghost view = { λ a. a.value };

    ghost invariant = { λ a. IsNumberOf agent_digits a.value };

    ghost inverse = { λ n. record { value = n } };
}

impl AgentId {
    /// Reads the digits of an agent.
    pub fn read(bytes: &[u8]) -> Result<AgentId, IdFault>
        ensures { result ≡ read_id agent_digits bytes.now }
    {
        let value = read_number(bytes, 9)?;
        Ok(AgentId { value })
    }

    /// The agent of a number, as [`Self::number`] gives it.
    #[tactic(auto, unfolding(crate::specs::Forms::id_with))]
    pub fn from_number(number: u64) -> Option<AgentId>
        ensures { result ≡ id_with agent_digits number }
    {
        if is_number_of(number, 9) {
            Some(AgentId { value: number })
        } else {
            None
        }
    }

    /// The number that gives the order.
    pub fn number(self) -> u64
        ensures value { result ≡ self }
        ensures formed { IsNumberOf agent_digits self }
    {
        self.value
    }

    /// Its digits.
    pub fn text(self) -> ShortText<9>
        ensures { result ≡ digits_of self }
    {
        let mut buffer = Buffer::new();
        let digits = digits_after_one(self.value, &mut buffer);
        ShortText::holding(digits)
    }
}

// The number of one to `longest` digits.
#[tactic(auto, unfolding(crate::specs::Forms::read_id))]
fn read_number(bytes: &[u8], longest: usize) -> Result<u64, IdFault>
    requires { longest ≤ 15 }
    ensures value { result ≡ read_id longest bytes.now }
    ensures formed { IfOk result (IsNumberOf longest) }
{
    if bytes.is_empty() {
        return Err(IdFault::Empty);
    }
    if bytes.len() > longest {
        return Err(IdFault::TooLong);
    }
    match first_bad(bytes) {
        Some(place) => Err(IdFault::NotDigit(place)),
        None => Ok(number_of(bytes)),
    }
}

// Whether the number is the digit 1 and one to `longest` digits.
fn is_number_of(number: u64, longest: usize) -> bool
    requires { longest ≤ 15 }
    ensures { result ≡ is_number_of longest number }
{
    let mut buffer = Buffer::new();
    let digits = buffer.format(number).as_bytes();
    digits.len() > 1 && digits.len() <= longest + 1 && digits[0] == b'1'
}

// The place of the first byte that is no digit.
fn first_bad(bytes: &[u8]) -> Option<usize>
    ensures { result ≡ position is_not_digit bytes.now }
{
    bytes.iter().position(|b| !b.is_ascii_digit())
}

// The value of the digit 1 followed by the digits.
fn number_of(digits: &[u8]) -> u64
    requires short { length digits.now ≤ 15 }
    requires all { list_all is_ascii_digit digits.now ≡ true }
    ensures { result ≡ number_of digits.now }
{
    let mut number = 1u64;
    for b in digits {
        number = number * 10 + u64::from(*b - b'0');
    }
    number
}

// The digits after the first digit of a number.
fn digits_after_one(number: u64, buffer: &mut Buffer) -> &[u8]
    requires { IsNumberOf device_digits number }
    ensures value { result.now ≡ digits_of number }
    ensures ascii { list_all is_ascii result.now ≡ true }
{
    &buffer.format(number).as_bytes()[1..]
}
