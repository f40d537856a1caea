//! Ids of members, and the numbers of periods.

ghost use Rattle.std.specs.Prelude.{◌≡◌, ℕ, ◌<◌, ◌^◌, Some, IfSome, decimal};
ghost use Rattle.std.specs.Option.{SomeIff};
ghost use Rattle.swim_wire.specs.Ids.{id_of};

use std::marker::Model;
use swim_text::read_number;

/// The id of a member: 1 to 4294967295. A contract sees the number.
#[derive(Clone, Copy, Debug, PartialEq, Eq, PartialOrd, Ord)]
pub struct Id {
    value: u32,
}

impl Model for Id {
    ghost Value = { ℕ };

    ghost view = { λ id. id.value };

    ghost invariant = { λ id. 0 < id.value };

    ghost inverse = { λ n. record { value = n } };
}

impl Id {
    /// The id of that number, and `None` for 0.
    pub fn new(value: u32) -> Option<Id>
        ensures { SomeIff result (0 < value) value }
    {
        if value == 0 { None } else { Some(Id { value }) }
    }

    /// The id whose number the text is in decimal, with no sign and no zero in front. `None` for any other
    /// text.
    pub fn read(text: &[u8]) -> Option<Id>
        ensures exact { result ≡ id_of text.now }

        // What is read is written so,
        ensures found { IfSome result (λ id. (0 < id) × (id < 2 ^ 32) × (text.now ≡ decimal id)) }

        // and what is written so is read.
        ensures only { (id : ℕ) → 0 < id → id < 2 ^ 32 → text.now ≡ decimal id → result ≡ Some id }
    {
        let number = read_number(text, u64::from(u32::MAX))?;
        Id::new(number as u32)
    }

    /// The number.
    pub fn get(self) -> u32
        ensures value { result ≡ self }
        ensures nonzero { 0 < result }
    {
        self.value
    }
}

/// Some id, so that ids can stand in an array of a fixed capacity. Nothing rests on which one.
impl Default for Id {
    ghost is_default = { λ id. id ≡ 1 };

    fn default() -> Id {
        Id { value: 1 }
    }
}

/// The number of a protocol period as a datagram carries it: 1 to 2^64-1. A contract sees the number.
#[derive(Clone, Copy, Debug, PartialEq, Eq, PartialOrd, Ord)]
pub struct PeriodNumber {
    number: u64,
}

impl Model for PeriodNumber {
    ghost Value = { ℕ };

    ghost view = { λ period. period.number };

    ghost invariant = { λ period. 0 < period.number };

    ghost inverse = { λ n. record { number = n } };
}

impl PeriodNumber {
    /// The number of a period, and `None` for 0.
    pub fn new(number: u64) -> Option<PeriodNumber>
        ensures { SomeIff result (0 < number) number }
    {
        if number == 0 {
            None
        } else {
            Some(PeriodNumber { number })
        }
    }

    /// The number.
    pub fn get(self) -> u64
        ensures value { result ≡ self }
        ensures nonzero { 0 < result }
    {
        self.number
    }
}

/// Some number, so that messages can stand in an array of a fixed capacity. Nothing rests on which one.
impl Default for PeriodNumber {
    ghost is_default = { λ number. number ≡ 1 };

    fn default() -> PeriodNumber {
        PeriodNumber { number: 1 }
    }
}
