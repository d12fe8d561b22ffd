// The whole program: its records in order.

ghost use Rattle.std.specs.Prelude.{◌≡◌, []};
ghost use Rattle.tree.specs.Readers.{after};
ghost use Rattle.program.specs.Verdict.{registers, rules, entries, ended, verdict};
ghost use Rattle.program.specs.Records.{listed, allowed};

use crate::record::{Opening, Records};
use arrayvec::ArrayVec;
use terms::kind::Kind;
use terms::refusal::{Fault, Refusal};

/// A program has at most so many bytes.
pub const MAX_BYTES: usize = 16_384;

/// A program has at most so many registers.
pub const MAX_REGISTERS: usize = 64;

/// A program has at most so many rules.
pub const MAX_RULES: usize = 32;

/// A program has at most so many entries.
pub const MAX_ENTRIES: usize = 64;

/// How many records of each sort a program has.
#[derive(Clone, Copy, Debug, PartialEq, Eq)]
pub struct Counts {
    pub registers: usize,
    pub rules: usize,
    pub entries: usize,
}

impl Records {
    /// Reads the registers: the kind of each.
    #[tactic(auto, using(crate::proofs::Steps::registers_left))]
    fn registers(self, input: &mut &[u8]) -> Result<ArrayVec<Kind, MAX_REGISTERS>, Fault>
        ensures { after (listed result) input.new.now ≡ registers 64 self.end [] input.old.now }
    {
        let mut kinds = ArrayVec::new();
        while let Opening::Register(fields) = Opening::from(*input) {
            if kinds.is_full() {
                return Err(Refusal::Count.at(self.text().place(input)));
            }
            *input = fields;
            kinds.push(self.register(input)?);
        }
        Ok(kinds)
    }

    // The loops of `rules` and `entries` stay two: one for both would be a generic function over a trait with a limit, a mark, a
    // reader and its law, for six lines. They count what they answer, and no index.

    /// Reads the rules of a program with registers of these kinds.
    #[tactic(auto, using(crate::proofs::Steps::rules_left))]
    fn rules(self, kinds: &[Kind], input: &mut &[u8]) -> Result<usize, Fault>
        ensures { after result input.new.now ≡ rules 32 self.end kinds.now 0 input.old.now }
    {
        let mut count = 0;
        while let Opening::Rule(fields) = Opening::from(*input) {
            self.allow(kinds.len(), MAX_RULES - count, input)?;
            *input = fields;
            self.rule(kinds, input)?;
            count += 1;
        }
        Ok(count)
    }

    /// Reads the entries of a program with so many rules.
    #[tactic(auto, using(crate::proofs::Steps::entries_left))]
    fn entries(self, rules: usize, input: &mut &[u8]) -> Result<usize, Fault>
        ensures { after result input.new.now ≡ entries 64 self.end rules 0 input.old.now }
    {
        let mut count = 0;
        while let Opening::Entry(fields) = Opening::from(*input) {
            self.allow(rules, MAX_ENTRIES - count, input)?;
            *input = fields;
            self.entry(rules, input)?;
            count += 1;
        }
        Ok(count)
    }

    /// Asks that a record may stand here: behind a record of the sort before its own, where there is room for one more.
    fn allow(self, before: usize, room: usize, input: &[u8]) -> Result<(), Fault>
        ensures { result ≡ allowed self.end before room input.now }
    {
        if before == 0 {
            Err(Refusal::Order.at(self.text().place(input)))
        } else if room == 0 {
            Err(Refusal::Count.at(self.text().place(input)))
        } else {
            Ok(())
        }
    }

    /// Asks that the program ends here, behind so many entries.
    fn finish(self, entries: usize, input: &[u8]) -> Result<(), Fault>
        ensures { result ≡ ended self.end entries input.now }
    {
        match input {
            [] if entries > 0 => Ok(()),
            [_, _, ..] => Err(Refusal::Order.at(self.text().place(input))),
            _ => Err(Refusal::Missing.at(self.end)),
        }
    }
}

/// Reads a program's bytes, any number of them: how many records of each sort there are, or the first byte at fault.
pub fn examine(program: &[u8]) -> Result<Counts, Fault>
    ensures { result ≡ verdict program.now }
{
    if program.len() > MAX_BYTES {
        return Err(Refusal::Length.at(0));
    }
    let records = Records { end: program.len() };
    let mut input = program;
    let kinds = records.registers(&mut input)?;
    let rules = records.rules(kinds.as_slice(), &mut input)?;
    let entries = records.entries(rules, &mut input)?;
    records.finish(entries, input)?;
    Ok(Counts {
        registers: kinds.len(),
        rules,
        entries,
    })
}
