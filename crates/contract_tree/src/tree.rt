use lc_base::{Name, Text};

/// Functions, in the order of the source.
pub type FunctionList = Vec<Function>;
/// Parameters, in the order of the source.
pub type ParamList = Vec<Param>;
/// Statements, in the order of the source.
pub type StatementList = Vec<Statement>;
/// Expressions, in the order of the source.
pub type ExprList = Vec<Expr>;

/// A contract.
#[derive(Drop)]
pub struct Contract {
    /// The edition of the language that it is written in.
    pub edition: u8,
    /// The functions, at least one if the contract was read from a source.
    pub functions: FunctionList,
}

/// A function.
#[derive(Drop)]
pub struct Function {
    /// The offset of its name.
    pub at: u32,
    /// The name.
    pub name: Name,
    /// The parameters, no more than the grammar allows if the function was read from a source.
    pub params: ParamList,
    /// The statements of the body.
    pub body: StatementList,
}

/// A parameter of a function.
#[derive(Clone, Copy)]
pub struct Param {
    /// The offset of its name.
    pub at: u32,
    /// The name.
    pub name: Name,
    /// The kind of its values.
    pub kind: ValueKind,
}

/// The kind of a value.
#[derive(Clone, Copy, PartialEq, Eq)]
pub enum ValueKind {
    /// An integer, an `i64`.
    Int,
    /// A text.
    Text,
}

/// A statement.
#[derive(Drop)]
#[cycle(statement)]
pub struct Statement {
    /// The offset of its first token.
    pub at: u32,
    /// What it does.
    pub form: Form,
}

/// What a statement does.
#[derive(Drop)]
#[cycle(statement)]
pub enum Form {
    /// `let name = value;`
    Let {
        /// The offset of the name.
        name_at: u32,
        /// The name that it declares.
        name: Name,
        /// The value of the name afterwards.
        value: Expr,
    },
    /// `name = value;`
    Assign {
        /// The name, at the statement's offset.
        name: Name,
        /// The value of the name afterwards.
        value: Expr,
    },
    /// `if test { first } else { second }`
    If {
        /// The condition.
        test: Expr,
        /// What is executed if the condition holds.
        first: StatementList,
        /// What is executed if it doesn't, if the source has an `else`.
        second: Option<StatementList>,
    },
    /// `while test { body }`
    While {
        /// The condition.
        test: Expr,
        /// What is executed as long as the condition holds.
        body: StatementList,
    },
    /// `put key = value from from;`
    Put {
        /// The key.
        key: Expr,
        /// The new value.
        value: Expr,
        /// The keys that the value is said to be derived from, if the source has a `from`.
        from: Option<ExprList>,
    },
    /// `drop key from from;`
    Remove {
        /// The key, which has no value afterwards.
        key: Expr,
        /// The keys that its version is said to be derived from, if the source has a `from`.
        from: Option<ExprList>,
    },
    /// `fail;`
    Fail,
    /// `return;`
    Return,
}

/// An expression. Its offset is that of its first byte for a number, text, name or call, and that
/// of its operator for the others.
#[derive(Drop)]
#[cycle(expression)]
pub struct Expr {
    /// The offset.
    pub at: u32,
    /// What it is.
    pub node: ExprNode,
}

/// What an expression is.
#[derive(Drop)]
#[cycle(expression)]
pub enum ExprNode {
    /// A number, not negative if the expression was read from a source.
    Int(i64),
    /// A text.
    Text(Text),
    /// A name.
    Name(Name),
    /// `name(args)`
    Call {
        /// The name that is called.
        name: Name,
        /// The arguments.
        args: ExprList,
    },
    /// `-operand` or `!operand`
    Prefix {
        /// The operator.
        sign: Sign,
        /// The operand.
        operand: Box<Expr>,
    },
    /// `left sign right`
    Binary {
        /// The operator.
        sign: Sign,
        /// The left operand.
        left: Box<Expr>,
        /// The right operand.
        right: Box<Expr>,
    },
}

/// An operator.
#[derive(Clone, Copy)]
pub enum Sign {
    /// `||`
    Or,
    /// `&&`
    And,
    /// `==`
    Equal,
    /// `!=`
    NotEqual,
    /// `<`
    Less,
    /// `<=`
    LessEqual,
    /// `>`
    Greater,
    /// `>=`
    GreaterEqual,
    /// `++`
    Concat,
    /// `+`
    Plus,
    /// `-`, between two operands or as a prefix
    Minus,
    /// `*`
    Star,
    /// `/`
    Slash,
    /// `%`
    Percent,
    /// `!`, a prefix only
    Not,
}
