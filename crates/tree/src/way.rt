// The way from a rule's body down to a node, as far as the rules of nesting and naming ask for it.

ghost use Rattle.std.specs.Prelude.{◌≡◌, ◌+◌, ◌<◌, ◌≤◌, ◌∷◌, [], ◌++◌, length, take};
ghost use Rattle.tree.specs.Paths.{Path, to_body, deeper, past_let, past_fork, bind};

use std::marker::Model;

/// No node is deeper than this, the body's action having depth 1.
const MAX_DEPTH: u8 = 24;
/// At most so many lets lie on the way to a node, itself included.
const MAX_LETS: usize = 8;
/// At most so many parallel actions and local guards lie on the way to a node, itself included.
const MAX_FORKS: u8 = 8;

/// What may still be nested on the way to a node, and what the lets in whose last part it lies have bound.
///
/// Contracts see it as a `Path`, with one list of what is bound.
#[derive(Drop)]
pub struct Way<T: Copy> {
    depth: u8,
    lets: u8,
    forks: u8,
    // An array, since nothing is allocated; a vector of fixed capacity asks for a default value, and can't be copied as `..*self`.
    values: [T; MAX_LETS],
    bound: usize,
}

impl<T: Copy> Model for Way<T> {
    ghost Value = { Path T };

    ghost view = { λ w. record { depth = w.depth; lets = w.lets; forks = w.forks; scope = take w.bound w.values } };

    ghost invariant = { λ w. w.bound + w.lets ≤ 8 };
}

impl<T: Copy> Way<T> {
    /// The way to a body, where nothing is bound yet; the argument fills the places of what will be bound.
    pub fn to_body(filler: T) -> Way<T>
        ensures { result ≡ to_body }
    {
        Way {
            depth: MAX_DEPTH,
            lets: MAX_LETS as u8,
            forks: MAX_FORKS,
            values: [filler; MAX_LETS],
            bound: 0,
        }
    }

    // `deeper`, `past_let` and `past_fork` differ in the field that they count down, which no parameter can be; an index in place
    // of the three names would read worse.

    /// The way to the parts of a node, one deeper.
    pub fn deeper(&self) -> Option<Way<T>>
        ensures { result ≡ deeper self.now }
    {
        let depth = self.depth.checked_sub(1)?;
        Some(Way { depth, ..*self })
    }

    /// What the lets on the way have bound, the outermost first.
    pub fn scope(&self) -> &[T]
        ensures { result.now ≡ self.now.scope }
    {
        &self.values[..self.bound]
    }

    /// The way past a let.
    pub fn past_let(&self) -> Option<PastLet<T>>
        ensures { result ≡ past_let self.now }
    {
        let lets = self.lets.checked_sub(1)?;
        Some(PastLet {
            way: Way { lets, ..*self },
        })
    }

    /// The way to the parts of a node that is a parallel action or a local guard.
    pub fn past_fork(&self) -> Option<Way<T>>
        ensures { result ≡ past_fork self.now }
    {
        let forks = self.forks.checked_sub(1)?;
        Some(Way { forks, ..*self })
    }
}

/// A way past a let, on which there is room for what the let binds.
#[derive(Drop)]
pub struct PastLet<T: Copy> {
    way: Way<T>,
}

impl<T: Copy> Model for PastLet<T> {
    ghost Value = { Path T };

    ghost view = { λ p. p.way };

    ghost invariant = { λ p. length p.way.scope + p.way.lets < 8 };
}

impl<T: Copy> PastLet<T> {
    /// The way to the part whose value is bound.
    pub fn first(&self) -> &Way<T>
        ensures { result.now ≡ self.now }
    {
        &self.way
    }

    /// The way to the last part, which sees what was bound.
    pub fn bind(&self, value: T) -> Way<T>
        ensures { result ≡ bind self.now value }
    {
        let mut values = self.way.values;
        values[self.way.bound] = value;
        Way {
            values,
            bound: self.way.bound + 1,
            ..self.way
        }
    }
}
