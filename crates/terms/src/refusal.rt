// What is wrong with a program's bytes, and where, and why a call refuses.

ghost use Rattle.std.specs.Prelude.{◌≡◌};
ghost use Rattle.terms.specs.declared.refusal.Refused.TheVariants.{Program};
ghost use Rattle.terms.specs.Refusals.{fault, number, refused_number};

/// A question that the check answered no, in the order of the questions' numbers.
#[derive(Clone, Copy, Debug, PartialEq, Eq)]
pub enum Refusal {
    /// The program has more bytes than any program may have.
    Length = 1,
    /// The program ends inside a mark or a record, or before its first entry.
    Missing = 2,
    /// A mark that may not stand where it does.
    Order = 3,
    /// A register, rule or entry more than a program may have.
    Count = 4,
    /// A type, truth, operator, node or initial value of another sort than is wanted there.
    Sort = 5,
    /// A number or mask that names what is not there, or what has another type.
    Name = 6,
    /// A node beyond the nesting limits.
    Nesting = 7,
    /// A tree that ends before its body does, or goes on after it.
    Fill = 8,
}

/// The first byte at fault in a program, and the question that it fails.
#[derive(Clone, Copy, Debug, PartialEq, Eq)]
pub struct Fault {
    pub refusal: Refusal,
    pub place: usize,
}

impl Refusal {
    /// The fault of a program that is refused for this at a place.
    // A method, since the literal of a `Fault` and the `From` of a pair are longer at each of its calls.
    pub fn at(self, place: usize) -> Fault
        ensures { result ≡ fault self place }
    {
        Fault {
            refusal: self,
            place,
        }
    }
}

/// The number of the question, as it is shown to people.
impl From<Refusal> for u8 {
    ghost from_gives = { λ q n. n ≡ number q };

    fn from(refusal: Refusal) -> u8 {
        refusal as u8
    }
}

/// Why a call refuses what it is handed: a fault of the program, or a question of the call's own that was answered no.
#[derive(Clone, Copy, Debug, PartialEq, Eq)]
pub enum Refused {
    /// The program has this fault.
    Program(Fault),
    /// The program has no rule of that number.
    Rule,
    /// A list that has not just one value for each register, or a truth above 1.
    Values,
}

/// The number of the question, as it is shown to people.
impl From<Refused> for u8 {
    ghost from_gives = { λ q n. n ≡ refused_number q };

    fn from(refused: Refused) -> u8 {
        match refused {
            Refused::Program(fault) => u8::from(fault.refusal),
            Refused::Rule => 14,
            Refused::Values => 18,
        }
    }
}

impl From<Fault> for Refused {
    ghost from_gives = { λ f r. r ≡ Program f };

    fn from(fault: Fault) -> Refused {
        Refused::Program(fault)
    }
}
