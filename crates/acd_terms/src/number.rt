//! Whole numbers, each type with its range.

ghost use Rattle.std.specs.Prelude.{◌≡◌};
ghost use Rattle.acd_terms.specs.Forms.{number_between, IsBetween};

use std::marker::Model;

/// A whole number from `LEAST` to `GREATEST`.
#[derive(Clone, Copy, Debug, PartialEq, Eq, PartialOrd, Ord, Hash)]
pub struct Between<const LEAST: u32, const GREATEST: u32> {
    number: u32,
}

impl<const LEAST: u32, const GREATEST: u32> Model for Between<LEAST, GREATEST> {
    ghost use Rattle.std.specs.Prelude.{ℕ};
    ghost use Rattle.acd_terms.specs.Forms.{IsBetween};

    ghost Value = { ℕ };

    ghost view = { λ b. b.number };

    ghost invariant = { λ b. IsBetween LEAST GREATEST b.number };

    ghost inverse = { λ n. record { number = n } };
}

impl<const LEAST: u32, const GREATEST: u32> Between<LEAST, GREATEST> {
    /// The number, where it is in range.
    #[tactic(auto, unfolding(crate::specs::Forms::number_between))]
    pub fn new(number: u64) -> Option<Self>
        ensures { result ≡ number_between LEAST GREATEST number }
    {
        if number >= u64::from(LEAST) && number <= u64::from(GREATEST) {
            Some(Between {
                number: number as u32,
            })
        } else {
            None
        }
    }
}

/// The number of a request among those of its requester: 1 to 999999999.
pub type Invoke = Between<1, 999_999_999>;

impl Invoke {
    pub fn number(self) -> u32
        ensures value { result ≡ self }
        ensures formed { IsBetween 1 999999999 self }
    {
        self.number
    }
}

/// A time of a group in seconds: 0 to 3600, where 0 means never.
pub type Seconds = Between<0, 3600>;

impl Seconds {
    pub fn number(self) -> u16
        ensures value { result ≡ self }
        ensures formed { IsBetween 0 3600 self }
    {
        self.number as u16
    }
}

/// The priority of a group: 0 to 9, and 9 comes first.
pub type Priority = Between<0, 9>;

impl Priority {
    /// The priority of a group that got none: 0.
    pub fn lowest() -> Priority
        ensures { result ≡ 0 }
    {
        Between { number: 0 }
    }

    pub fn number(self) -> u8
        ensures value { result ≡ self }
        ensures formed { IsBetween 0 9 self }
    {
        self.number as u8
    }
}

/// A call or a monitor as a request names it: 1 to 1000000000.
pub type Serial = Between<1, 1_000_000_000>;

impl Serial {
    pub fn number(self) -> u64
        ensures value { result ≡ self }
        ensures formed { IsBetween 1 1000000000 self }
    {
        u64::from(self.number)
    }
}
