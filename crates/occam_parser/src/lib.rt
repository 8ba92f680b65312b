//! From lines of tokens to the tree of a program.
#![tactic(auto)]

mod block;
mod declaration;
mod expression;
mod fault;
mod front;
mod head;
mod list;
mod parsed;
mod program;
mod tree;

pub use block::MAX_LEVEL;
pub use expression::MAX_NESTING;
pub use fault::{MEMORY, MISSING_BODY, MIXTURE, NESTING, ParseFault, UNEXPECTED_TOKEN};
pub use parsed::Program;
pub use program::parse;
pub use tree::{
    Action, ArithmeticChain, ArithmeticPair, Body, Branch, ChainOperator, Choice, Constant,
    ConstantValue, Construct, Declaration, Expr, Formal, FormalKind, Guard, Item, Logic, Names,
    OneOrMore, Operand, Operation, PairOperator, Place, PrefixOperator, Proc, Process, Replicator,
    ValueType,
};
pub use word_arithmetic::Comparison;
