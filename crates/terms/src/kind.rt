// The two types of value, and the operators on them.

ghost use Rattle.std.specs.Prelude.{◌≡◌};
ghost use Rattle.terms.specs.Codes.{known};
ghost use Rattle.terms.specs.Kinds.{kind_of, fits, operand_kind, value_kind, operator_of};

use crate::code::{Code, Unknown};

/// The type of a register, of what a let binds, and of what an expression gives. The default fills places that are not used yet.
#[derive(Clone, Copy, Debug, Default, PartialEq, Eq)]
pub enum Kind {
    #[default]
    Truth,
    Word,
}

impl TryFrom<u8> for Kind {
    type Error = Unknown;

    ghost try_from_gives = { λ b r. r ≡ known (kind_of b) };

    fn try_from(byte: u8) -> Result<Kind, Unknown> {
        match byte {
            0 => Ok(Kind::Truth),
            1 => Ok(Kind::Word),
            _ => Err(Unknown),
        }
    }
}

impl Code for Kind {
    ghost meaning = { kind_of };

    ghost converts = { λ _ _ h. h };
}

impl Kind {
    /// Whether a register of this kind can hold the value.
    pub fn fits(self, value: u32) -> bool
        ensures { result ≡ fits self value }
    {
        match self {
            Kind::Truth => value < 2,
            Kind::Word => true,
        }
    }
}

/// An operator, which takes two values of one kind.
#[derive(Clone, Copy, Debug, PartialEq, Eq)]
pub enum Operator {
    Sum,
    Difference,
    And,
    Or,
    ExclusiveOr,
    Less,
    Equal,
    Both,
    Either,
}

impl TryFrom<u8> for Operator {
    type Error = Unknown;

    ghost try_from_gives = { λ b r. r ≡ known (operator_of b) };

    fn try_from(byte: u8) -> Result<Operator, Unknown> {
        match byte {
            0 => Ok(Operator::Sum),
            1 => Ok(Operator::Difference),
            2 => Ok(Operator::And),
            3 => Ok(Operator::Or),
            4 => Ok(Operator::ExclusiveOr),
            5 => Ok(Operator::Less),
            6 => Ok(Operator::Equal),
            7 => Ok(Operator::Both),
            8 => Ok(Operator::Either),
            _ => Err(Unknown),
        }
    }
}

impl Code for Operator {
    ghost meaning = { operator_of };

    ghost converts = { λ _ _ h. h };
}

impl Operator {
    /// The kind of both operands.
    pub fn takes(self) -> Kind
        ensures { result ≡ operand_kind self }
    {
        match self {
            Operator::Sum
            | Operator::Difference
            | Operator::And
            | Operator::Or
            | Operator::ExclusiveOr
            | Operator::Less
            | Operator::Equal => Kind::Word,
            Operator::Both | Operator::Either => Kind::Truth,
        }
    }

    /// The kind of the value.
    pub fn gives(self) -> Kind
        ensures { result ≡ value_kind self }
    {
        match self {
            Operator::Sum
            | Operator::Difference
            | Operator::And
            | Operator::Or
            | Operator::ExclusiveOr => Kind::Word,
            Operator::Less | Operator::Equal | Operator::Both | Operator::Either => Kind::Truth,
        }
    }
}
