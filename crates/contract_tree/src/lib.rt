//! The tree of a contract, and the builtins that every contract may call.
#![tactic(auto)]

mod builtin;
mod tree;

pub use builtin::Builtin;
pub use tree::{
    Contract, Expr, ExprList, ExprNode, Form, Function, FunctionList, Param, ParamList, Sign,
    Statement, StatementList, ValueKind,
};
