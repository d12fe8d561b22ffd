// Writes to registers, at most one for each.

ghost use Rattle.std.specs.Prelude.{◌≡◌, ◌≤◌, ◌<◌, MatchOption};
ghost use Rattle.outcome.specs.Writes.{no_writes, one_write, over, shared, mask, after};
ghost use Rattle.outcome.specs.Kept.{meaning};

use program::examine::MAX_REGISTERS;
use std::array;

/// The number of a register that can be written.
#[derive(Clone, Copy)]
pub(crate) struct Register {
    number: usize,
    ghost within: { number < 64 },
}

impl Register {
    /// The register of a number, where there may be one.
    // As `new` of the library's `NonZero`: a number is no encoding of a register, but it.
    pub(crate) fn new(number: u8) -> Option<Register>
        ensures { MatchOption result (64 ≤ number) (λ r. (number < 64) × (r.number ≡ number)) }
    {
        let number = usize::from(number);
        if number < MAX_REGISTERS {
            Some(Register { number })
        } else {
            None
        }
    }
}

/// A set of writes: for each register the value that is written to it, if any.
// Contracts name its `meaning`, and it has no model: what a model gives has to be data, and `Writes` are a function.
#[derive(Clone, Copy)]
pub struct Kept {
    values: [Option<u32>; MAX_REGISTERS],
}

impl Kept {
    /// No writes.
    pub fn none() -> Kept
        ensures { meaning result ≡ no_writes }
    {
        Kept {
            values: [None; MAX_REGISTERS],
        }
    }

    /// One write.
    pub(crate) fn one(register: Register, value: u32) -> Kept
        ensures { meaning result ≡ one_write register.number value }
    {
        let mut values = [None; MAX_REGISTERS];
        values[register.number] = Some(value);
        Kept { values }
    }

    /// What is written to a register, if anything.
    pub fn get(&self, register: usize) -> Option<u32>
        ensures { result ≡ meaning self.now register }
    {
        self.values.get(register).copied().flatten()
    }

    /// The written registers, by the bit of value 2^r for register r.
    #[tactic(auto, using(crate::proofs::Masks::mask_none, crate::proofs::Masks::mask_more, crate::proofs::Masks::mask_set))]
    pub fn mask(&self) -> u64
        ensures { result ≡ mask (meaning self.now) }
    {
        let mut mask = 0;
        for (register, value) in self.values.iter().enumerate() {
            if value.is_some() {
                mask |= 1 << register;
            }
        }
        mask
    }

    /// Makes the writes in a list of the registers' values.
    pub fn make(&self, values: &mut [u32])
        ensures { values.new ≡ after (meaning self.now) values.old }
    {
        for (register, value) in values.iter_mut().enumerate() {
            if let Some(written) = self.get(register) {
                *value = written;
            }
        }
    }

    /// Whether some register is written in both.
    pub(crate) fn shares(&self, other: &Kept) -> bool
        ensures { result ≡ shared (meaning self.now) (meaning other.now) }
    {
        self.values
            .iter()
            .zip(&other.values)
            .any(|(first, second)| first.is_some() && second.is_some())
    }

    /// These writes over earlier ones.
    pub(crate) fn over(&self, earlier: &Kept) -> Kept
        ensures { meaning result ≡ over (meaning self.now) (meaning earlier.now) }
    {
        Kept {
            values: array::from_fn(|register| self.get(register).or(earlier.get(register))),
        }
    }
}
