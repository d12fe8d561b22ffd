// The worker: it works an expression or an action out on its bytes.

ghost use Rattle.std.specs.Prelude.{◌≡◌, map, option_map};
ghost use Rattle.terms.specs.Inputs.{taken};
ghost use Rattle.outcome.specs.Kept.{meaning};
ghost use Rattle.outcome.specs.Writes.{reading};
ghost use Rattle.outcome.specs.Held.{given, itself};
ghost use Rattle.outcome.specs.Working.{value_worked, writes_worked, body_worked, GivesOutcome};

use crate::actions::{beside, or_none, so_far_behind, then, update};
use crate::given::{Given, NotReady, bound, chosen, operated};
use crate::operator::named;
use crate::writes::{Kept, Register};
use terms::input::{byte, word};
use terms::node::{ActionNode, ValueNode};
use tree::way::Way;

/// What the registers read as while a body is worked out.
#[derive(Clone, Copy)]
struct Worker<'a> {
    /// The values of the registers.
    store: &'a [u32],
    /// The writes so far.
    so_far: &'a Kept,
}

impl Worker<'_> {
    /// What a register reads as: its latest write so far, else its value in the store.
    fn read(&self, register: usize) -> u32
        ensures { result ≡ reading self.now.store.now (meaning self.now.so_far.now) register }
    {
        self.so_far
            .get(register)
            .or(self.store.get(register).copied())
            .unwrap_or(0)
    }

    /// Works the expression at the front of the input out.
    #[tactic(auto, using(crate::proofs::Steps::value_none, crate::proofs::Steps::value_more, crate::proofs::Numbers::gives_named, std::proofs::lemmas::List::map_push))]
    fn value(&self, way: &Way<Given<u32>>, input: &mut &[u8]) -> Option<Given<u32>>
        ensures { taken (option_map (given itself) result) input.new.now ≡ value_worked self.now.store.now (meaning self.now.so_far.now) way.now.depth way.now.lets (map (given itself) way.now.scope) input.old.now }
    {
        let way = way.deeper()?;
        match ValueNode::try_from(byte(input)?).ok()? {
            ValueNode::Register => Some(Ok(self.read(usize::from(byte(input)?)))),
            ValueNode::Word => Some(Ok(word(input)?)),
            ValueNode::Truth => Some(Ok(u32::from(byte(input)?))),
            ValueNode::Variable => Some(bound(way.scope(), usize::from(byte(input)?))),
            ValueNode::Operator => {
                let operator = named(byte(input)?);
                let left = self.value(&way, input)?;
                let right = self.value(&way, input)?;
                Some(operated(operator, left, right))
            }
            ValueNode::Choice => {
                let truth = self.value(&way, input)?;
                let first = self.value(&way, input)?;
                let second = self.value(&way, input)?;
                Some(chosen(truth, first, second))
            }
            ValueNode::Guard => {
                let value = self.value(&way, input)?;
                let truth = self.value(&way, input)?;
                Some(chosen(truth, value, Err(NotReady)))
            }
            ValueNode::Let => {
                let within = way.past_let()?;
                byte(input)?;
                let value = self.value(within.first(), input)?;
                self.value(&within.bind(value), input)
            }
        }
    }

    /// Works the action at the front of the input out.
    #[tactic(auto, using(crate::proofs::Steps::writes_none, crate::proofs::Steps::writes_more, std::proofs::lemmas::List::map_push))]
    fn action(&self, way: &Way<Given<u32>>, input: &mut &[u8]) -> Option<Given<Kept>>
        ensures { taken (option_map (given meaning) result) input.new.now ≡ writes_worked self.now.store.now way.now.depth (meaning self.now.so_far.now) way.now.lets (map (given itself) way.now.scope) input.old.now }
    {
        let way = way.deeper()?;
        match ActionNode::try_from(byte(input)?).ok()? {
            ActionNode::Assign => {
                let register = Register::new(byte(input)?)?;
                Some(update(register, self.value(&way, input)?))
            }
            ActionNode::If => {
                let truth = self.value(&way, input)?;
                let action = self.action(&way, input)?;
                Some(chosen(truth, action, Ok(Kept::none())))
            }
            ActionNode::Parallel => {
                let first = self.action(&way, input)?;
                let second = self.action(&way, input)?;
                Some(beside(first, second))
            }
            ActionNode::Sequence => {
                let first = self.action(&way, input)?;
                let so_far = so_far_behind(self.so_far, first);
                let after_first = Worker {
                    so_far: &so_far,
                    ..*self
                };
                let second = after_first.action(&way, input)?;
                Some(then(first, second))
            }
            ActionNode::When => {
                let action = self.action(&way, input)?;
                let guard = self.value(&way, input)?;
                Some(chosen(guard, action, Err(NotReady)))
            }
            ActionNode::Let => {
                let within = way.past_let()?;
                byte(input)?;
                let value = self.value(within.first(), input)?;
                self.action(&within.bind(value), input)
            }
            ActionNode::Local => Some(or_none(self.action(&way, input)?)),
        }
    }
}

/// Works a rule's body out on the registers' values: its writes, or that it is not ready; nothing where the bytes are no body.
pub fn work_out(body: &[u8], values: &[u32]) -> Option<Given<Kept>>
    ensures is { option_map (given meaning) result ≡ body_worked values.now body.now }
    ensures outcome { GivesOutcome values.now body.now (option_map (given meaning) result) }
{
    let worker = Worker {
        store: values,
        so_far: &Kept::none(),
    };
    let mut input = body;
    let done = worker.action(&Way::to_body(Err(NotReady)), &mut input)?;
    input.is_empty().then_some(done)
}
