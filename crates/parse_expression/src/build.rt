//! Putting expressions together from their parts, with their heights.

ghost use Rattle.std.specs.Prelude.{
  ◌≡◌,
  ◌≤◌,
  ◌+◌,
  ℕ,
  List,
  map,
  max,
  Ok,
  Err,
  [],
  ◌∷◌,
  ◌++◌,
  IfOk,
  IfErr,
};
ghost use Rattle.contract_grammar.specs.declared.stop.ParseStop.TheVariants as stops;
ghost use Rattle.contract_grammar.specs.contract_tokens.declared.token.Token.{Token};
ghost use Rattle.contract_tree.specs.Tree.{tree_of, trees, heights, height as height_of};
ghost use Rattle.contract_tree.specs.Tree as tree;
ghost use Rattle.contract_grammar.specs.{
  Reading.{node},
  Reads.{Gives},
  declared.limits.TheConstants.{MAX_HEIGHT},
};

use contract_grammar::{MAX_HEIGHT, Obstacle, ParseStop};
use contract_tree::{Expr, ExprList, ExprNode, Sign};
use lc_base::Name;
use std::alloc::Global;

/// What was read, or why reading stopped.
pub type Parsed<T> = Result<T, ParseStop>;

/// An expression that was read, and its height.
#[derive(Drop)]
pub struct Subtree {
    pub expr: Expr,
    height: u32,
    ghost height_is: { height ≡ height_of (tree_of expr) },
    ghost height_most: { height ≤ MAX_HEIGHT },
}

/// Expressions that were read, and the greatest of their heights, 0 if there are none.
#[derive(Drop)]
pub struct Subtrees {
    pub items: ExprList,
    height: u32,
    ghost height_is: { height ≡ heights (trees (map tree_of items.items)) },
    ghost height_most: { height ≤ MAX_HEIGHT },
}

/// An expression without operands.
pub fn leaf(at: u32, node: ExprNode) -> Subtree
    requires { height_of (tree_of (record { at = at; node = node })) ≡ 1 }
    ensures { result.expr ≡ record { at = at; node = node } }
{
    Subtree {
        expr: Expr { at, node },
        height: 1,
    }
}

/// A call of this name; `Height` if it would be too high.
pub fn call(at: u32, name: Name, args: Subtrees) -> Parsed<Subtree>
    ensures { (ts : List Token) → Gives (λ b. tree_of b.expr) result
        (node at (tree.Call at name (trees (map tree_of args.items.items))) ts) ts }
{
    if args.height >= MAX_HEIGHT {
        return Err(ParseStop::At(Obstacle::Height(at)));
    }
    let height = args.height + 1;
    let node = ExprNode::Call {
        name,
        args: args.items,
    };
    Ok(Subtree {
        expr: Expr { at, node },
        height,
    })
}

/// This operator before an operand; `Height` if the result would be too high.
pub fn prefix(alloc: Global, at: u32, sign: Sign, operand: Subtree) -> Parsed<Subtree>
    ensures { (ts : List Token) → Gives (λ b. tree_of b.expr) result
        (node at (tree.Prefix at sign (tree_of operand.expr)) ts) ts }
{
    if operand.height >= MAX_HEIGHT {
        return Err(ParseStop::At(Obstacle::Height(at)));
    }
    let height = operand.height + 1;
    let operand = Box::new(alloc, operand.expr)?;
    Ok(Subtree {
        expr: Expr {
            at,
            node: ExprNode::Prefix { sign, operand },
        },
        height,
    })
}

/// This operator between two operands; `Height` if the result would be too high.
pub fn binary(alloc: Global, at: u32, sign: Sign, left: Subtree, right: Subtree) -> Parsed<Subtree>
    ensures { (ts : List Token) → Gives (λ b. tree_of b.expr) result
        (node at (tree.Binary at sign (tree_of left.expr) (tree_of right.expr)) ts) ts }
{
    let below = left.height.max(right.height);
    if below >= MAX_HEIGHT {
        return Err(ParseStop::At(Obstacle::Height(at)));
    }
    let left = Box::new(alloc, left.expr)?;
    let right = Box::new(alloc, right.expr)?;
    Ok(Subtree {
        expr: Expr {
            at,
            node: ExprNode::Binary { sign, left, right },
        },
        height: below + 1,
    })
}

impl Subtrees {
    /// No expressions.
    pub fn new(alloc: Global) -> Self
        ensures { result.items.items ≡ [] }
    {
        Subtrees {
            items: Vec::new(alloc),
            height: 0,
        }
    }

    /// Appends an expression.
    pub fn push(&mut self, item: Subtree) -> Parsed<()>
        ensures pushed { IfOk result
            (λ _. map tree_of self.new.items.items
            ≡ map tree_of self.old.items.items ++ tree_of item.expr ∷ []) }
        ensures memory { IfErr result (λ e. e ≡ stops.Memory) }
    {
        let height = self.height.max(item.height);
        self.items.push(item.expr)?;
        self.height = height;
        Ok(())
    }
}
