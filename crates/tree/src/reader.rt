// The reader of a rule's body: one action, whose nodes are read in byte order.

ghost use Rattle.std.specs.Prelude.{◌≡◌, Bool};
ghost use Rattle.terms.specs.declared.kind.Kind.{Kind};
ghost use Rattle.terms.specs.Kinds.{same, value_kind};
ghost use Rattle.tree.specs.Reading.{Body, word_of, truth_of, giving, named_of, wanted_of, suits, expression, action, tree};
ghost use Rattle.tree.specs.Readers.{after, passed};

use crate::text::Text;
use crate::way::Way;
use std::marker::Model;
use terms::code::Code;
use terms::kind::{Kind, Operator};
use terms::node::{ActionNode, ValueNode};
use terms::refusal::{Fault, Refusal};

/// A reader of a body, with the kinds of the registers. Contracts see it as the `Body`.
#[derive(Drop)]
struct Reader<'a> {
    text: Text,
    kinds: &'a [Kind],
}

impl<'a> Model for Reader<'a> {
    ghost Value = { Body };

    ghost view = { λ r. record { end = r.text.end; kinds = r.kinds.now; short = r.text.short } };
}

/// What gives a value, as far as its byte tells.
trait Gives: Code + Copy {
    // Whether it may give the kind that is wanted.
    ghost suits: { Kind → Self → Bool };

    fn suits(self, want: Kind) -> bool
        ensures { result ≡ suits want self };
}

impl Gives for Operator {
    ghost suits = { λ want o. same (value_kind o) want };

    fn suits(self, want: Kind) -> bool {
        self.gives() == want
    }
}

impl Gives for ValueNode {
    ghost suits = { suits };

    fn suits(self, want: Kind) -> bool {
        match self {
            ValueNode::Word => want == Kind::Word,
            ValueNode::Truth => want == Kind::Truth,
            _ => true,
        }
    }
}

impl Reader<'_> {
    fn word(&self, input: &mut &[u8]) -> Result<(), Fault>
        ensures { passed result input.new.now ≡ word_of self.now input.old.now }
    {
        self.text.word(input)?;
        Ok(())
    }

    fn truth(&self, input: &mut &[u8]) -> Result<(), Fault>
        ensures { passed result input.new.now ≡ truth_of self.now input.old.now }
    {
        let place = self.text.place(input);
        if self.text.byte(input)? < 2 {
            Ok(())
        } else {
            Err(Refusal::Sort.at(place))
        }
    }

    /// A byte that stands for what may give the kind that is wanted.
    fn giving<C: Gives>(&self, want: Kind, input: &mut &[u8]) -> Result<C, Fault>
        ensures { after result input.new.now ≡ giving self.now C.meaning C.suits want input.old.now }
    {
        let place = self.text.place(input);
        let code: C = self.text.coded(input)?;
        if code.suits(want) {
            Ok(code)
        } else {
            Err(Refusal::Sort.at(place))
        }
    }

    /// A number that names one of the things of these kinds: its kind.
    fn named(&self, kinds: &[Kind], input: &mut &[u8]) -> Result<Kind, Fault>
        ensures { after result input.new.now ≡ named_of self.now kinds.now input.old.now }
    {
        let place = self.text.place(input);
        let number = usize::from(self.text.byte(input)?);
        kinds.get(number).copied().ok_or(Refusal::Name.at(place))
    }

    /// The same, where the thing named has to be of the kind that is wanted.
    fn wanted(&self, kinds: &[Kind], want: Kind, input: &mut &[u8]) -> Result<(), Fault>
        ensures { passed result input.new.now ≡ wanted_of self.now kinds.now want input.old.now }
    {
        let place = self.text.place(input);
        if self.named(kinds, input)? == want {
            Ok(())
        } else {
            Err(Refusal::Name.at(place))
        }
    }

    #[tactic(auto, using(crate::proofs::Steps::expression_is))]
    fn expression(&self, way: &Way<Kind>, want: Kind, input: &mut &[u8]) -> Result<(), Fault>
        ensures { passed result input.new.now ≡ expression way.now.depth self.now way.now.lets way.now.scope want input.old.now }
    {
        let too_deep = Refusal::Nesting.at(self.text.place(input));
        let node: ValueNode = self.giving(want, input)?;
        let way = way.deeper().ok_or(too_deep)?;
        match node {
            ValueNode::Register => self.wanted(self.kinds, want, input),
            ValueNode::Word => self.word(input),
            ValueNode::Truth => self.truth(input),
            ValueNode::Variable => self.wanted(way.scope(), want, input),
            ValueNode::Operator => {
                let operator: Operator = self.giving(want, input)?;
                let kind = operator.takes();
                self.expression(&way, kind, input)?;
                self.expression(&way, kind, input)
            }
            ValueNode::Choice => {
                self.expression(&way, Kind::Truth, input)?;
                self.expression(&way, want, input)?;
                self.expression(&way, want, input)
            }
            ValueNode::Guard => {
                self.expression(&way, want, input)?;
                self.expression(&way, Kind::Truth, input)
            }
            ValueNode::Let => {
                let within = way.past_let().ok_or(too_deep)?;
                let kind = self.text.coded(input)?;
                self.expression(within.first(), kind, input)?;
                self.expression(&within.bind(kind), want, input)
            }
        }
    }

    #[tactic(auto, using(crate::proofs::Steps::action_is))]
    fn action(&self, way: &Way<Kind>, input: &mut &[u8]) -> Result<(), Fault>
        ensures { passed result input.new.now ≡ action way.now.depth self.now way.now.lets way.now.forks way.now.scope input.old.now }
    {
        let too_deep = Refusal::Nesting.at(self.text.place(input));
        let node = self.text.coded(input)?;
        let way = way.deeper().ok_or(too_deep)?;
        match node {
            ActionNode::Assign => {
                let kind = self.named(self.kinds, input)?;
                self.expression(&way, kind, input)
            }
            ActionNode::If => {
                self.expression(&way, Kind::Truth, input)?;
                self.action(&way, input)
            }
            ActionNode::Parallel => {
                let way = way.past_fork().ok_or(too_deep)?;
                self.action(&way, input)?;
                self.action(&way, input)
            }
            ActionNode::Sequence => {
                self.action(&way, input)?;
                self.action(&way, input)
            }
            ActionNode::When => {
                self.action(&way, input)?;
                self.expression(&way, Kind::Truth, input)
            }
            ActionNode::Let => {
                let within = way.past_let().ok_or(too_deep)?;
                let kind = self.text.coded(input)?;
                self.expression(within.first(), kind, input)?;
                self.action(&within.bind(kind), input)
            }
            ActionNode::Local => {
                let way = way.past_fork().ok_or(too_deep)?;
                self.action(&way, input)
            }
        }
    }
}

/// Reads a body, all bytes of a text, which one action has to fill.
pub fn read_body(bytes: &[u8], text: Text, kinds: &[Kind]) -> Result<(), Fault>
    ensures { result ≡ tree (record { end = text.end; kinds = kinds.now; short = text.short }) bytes.now }
{
    let reader = Reader { text, kinds };
    let mut input = bytes;
    reader.action(&Way::to_body(Kind::Truth), &mut input)?;
    if input.is_empty() {
        Ok(())
    } else {
        Err(Refusal::Fill.at(text.place(input)))
    }
}
