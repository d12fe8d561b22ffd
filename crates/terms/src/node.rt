// The nodes of a rule's tree, each opened by one byte.

ghost use Rattle.std.specs.Prelude.{◌≡◌};
ghost use Rattle.terms.specs.Codes.{known};
ghost use Rattle.terms.specs.Nodes.{value_node, action_node};

use crate::code::{Code, Unknown};

/// A node that gives a value.
#[derive(Clone, Copy, Debug, PartialEq, Eq)]
pub enum ValueNode {
    Register,
    Word,
    Truth,
    Variable,
    Operator,
    Choice,
    Guard,
    Let,
}

/// A node that gives writes.
#[derive(Clone, Copy, Debug, PartialEq, Eq)]
pub enum ActionNode {
    Assign,
    If,
    Parallel,
    Sequence,
    When,
    Let,
    Local,
}

impl TryFrom<u8> for ValueNode {
    type Error = Unknown;

    ghost try_from_gives = { λ b r. r ≡ known (value_node b) };

    fn try_from(byte: u8) -> Result<ValueNode, Unknown> {
        match byte {
            0x01 => Ok(ValueNode::Register),
            0x02 => Ok(ValueNode::Word),
            0x03 => Ok(ValueNode::Truth),
            0x04 => Ok(ValueNode::Variable),
            0x05 => Ok(ValueNode::Operator),
            0x06 => Ok(ValueNode::Choice),
            0x07 => Ok(ValueNode::Guard),
            0x08 => Ok(ValueNode::Let),
            _ => Err(Unknown),
        }
    }
}

impl Code for ValueNode {
    ghost meaning = { value_node };

    ghost converts = { λ _ _ h. h };
}

impl TryFrom<u8> for ActionNode {
    type Error = Unknown;

    ghost try_from_gives = { λ b r. r ≡ known (action_node b) };

    fn try_from(byte: u8) -> Result<ActionNode, Unknown> {
        match byte {
            0x11 => Ok(ActionNode::Assign),
            0x12 => Ok(ActionNode::If),
            0x13 => Ok(ActionNode::Parallel),
            0x14 => Ok(ActionNode::Sequence),
            0x15 => Ok(ActionNode::When),
            0x16 => Ok(ActionNode::Let),
            0x17 => Ok(ActionNode::Local),
            _ => Err(Unknown),
        }
    }
}

impl Code for ActionNode {
    ghost meaning = { action_node };

    ghost converts = { λ _ _ h. h };
}
