//! Reading a whole source: its tokens first, then the contract that they are.

ghost use Rattle.std.specs.Prelude.{◌≡◌, ◌<◌, ◌^◌, length, IfOk};
ghost use Rattle.lc_base.specs.Answers.{Answers};
ghost use Rattle.contract_tree.specs.Tree.{contract_of};
ghost use Rattle.contract_grammar.specs.{Marks.{is_end}, Reading.{contract}};
ghost use Rattle.contract_parse.specs.Syntax.{refusal, unfit_kind, Outcome, IsOutcome, HasOneOutcome, HasOneObstacle, fault_of, token_kind, stop_fault, obstacle_fault, reading_outcome};

use crate::function::contract;
use contract_grammar::{Cursor, Obstacle, ParseStop, is_end};
use contract_tokens::{Token, TokenError, TokenKind, Tokens};
use contract_tree::Contract;
use std::alloc::Global;

/// What is wrong in a source.
#[derive(Clone, Copy)]
pub enum SyntaxKind {
    /// A byte that begins no token.
    Byte,
    /// A number, text literal or name that breaks its rule.
    Literal,
    /// A token that does not fit, a builtin's name in a declaration, or the name of a parameter too
    /// many.
    Expected,
    /// The source ends too early.
    End,
    /// A limit of depth or height is exceeded.
    Deep,
}

/// Why a source was not read.
#[derive(Clone, Copy)]
pub enum SyntaxError {
    /// The first fault of the source.
    Refused {
        /// The offset of the fault.
        at: u32,
        /// What is wrong there.
        kind: SyntaxKind,
    },
    /// Out of memory.
    Memory,
}

fn token_kind(kind: TokenKind) -> SyntaxKind
    ensures { result ≡ token_kind kind }
{
    match kind {
        TokenKind::Byte => SyntaxKind::Byte,
        TokenKind::Literal => SyntaxKind::Literal,
    }
}

fn obstacle_fault(why: Obstacle, token: &Token) -> (u32, SyntaxKind)
    ensures { result ≡ obstacle_fault why token.now }
{
    match why {
        Obstacle::Unfit => (token.at, unfit_kind(token)),
        Obstacle::Surplus => (token.at, SyntaxKind::Expected),
        Obstacle::Pending | Obstacle::Nesting => (token.at, SyntaxKind::Deep),
        Obstacle::Height(at) => (at, SyntaxKind::Deep),
    }
}

fn unfit_kind(token: &Token) -> SyntaxKind
    ensures { result ≡ unfit_kind (is_end token.now) }
{
    if is_end(&token.word) {
        SyntaxKind::End
    } else {
        SyntaxKind::Expected
    }
}

fn stop_fault(why: Obstacle, cursor: &Cursor<'_>) -> (u32, SyntaxKind)
    ensures { result ≡ stop_fault why cursor.now }
{
    match cursor.next() {
        None => (0, SyntaxKind::End),
        Some(token) => obstacle_fault(why, token),
    }
}

fn refusal(error: TokenError) -> SyntaxError
    ensures { result ≡ refusal error }
{
    match error {
        TokenError::Refused { at, kind } => SyntaxError::Refused {
            at,
            kind: token_kind(kind),
        },
        TokenError::Memory => SyntaxError::Memory,
    }
}

fn read(tokens: Tokens<'_>, edition: u8) -> Result<Contract, SyntaxError>
    ensures outcome { Answers contract_of fault_of result (reading_outcome (contract tokens.entry)) }
    ensures edition { IfOk result (λ contract. contract.edition ≡ edition) }
{
    let Ok(mut cursor) = Cursor::new(tokens) else {
        return Err(SyntaxError::Memory);
    };
    match contract(&mut cursor, edition) {
        Ok(contract) => Ok(contract),
        Err(ParseStop::Memory) => Err(SyntaxError::Memory),
        Err(ParseStop::At(why)) => {
            let (at, kind) = stop_fault(why, &cursor);
            Err(SyntaxError::Refused { at, kind })
        }
    }
}

/// The contract that a source is in an edition, `FIRST_EDITION` or `SECOND_EDITION`. Each source has
/// one outcome in an edition: it reads as a contract, or it has a first fault.
///
/// # Errors
///
/// The first fault of the source, or `Memory`.
pub fn parse(alloc: Global, source: &[u8], edition: u8) -> Result<Contract, SyntaxError>
    requires { length source.now < 2 ^ 32 }
    ensures outcome { (outcome : Outcome) × IsOutcome edition source.now outcome × Answers contract_of fault_of result outcome }
    ensures edition { IfOk result (λ contract. contract.edition ≡ edition) }
    ensures once { HasOneOutcome edition source.now }
    ensures one_fault { HasOneObstacle edition source.now }
{
    match Tokens::new(alloc, source, edition) {
        Ok(tokens) => read(tokens, edition),
        Err(error) => Err(refusal(error)),
    }
}
