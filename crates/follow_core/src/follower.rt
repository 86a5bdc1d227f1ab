//! A follower: a node, and the blocks that wait for those before them.

ghost use Rattle.std.specs.{
  Prelude.{◌≡◌, ◌+◌, ◌≤◌, [], length},
  Option.{is_some},
};
ghost use Rattle.follower_steps.specs.{
  Steps.{AreAhead, position_of},
  declared.limits.TheConstants.{MAX_AHEAD},
};

use follower_steps::{Waiting, position_of};
use recovery::Node;
use std::alloc::Global;
use std::marker::Model;

/// A node that takes blocks in any order, and the blocks that wait for those before them: at most
/// one with each number, which is that of the next block or at most `MAX_AHEAD` above it. Nothing
/// of these is on the disk, so a crash loses them.
#[derive(Drop)]
pub struct Follower {
    pub(crate) node: Node,
    pub(crate) waiting: Vec<Waiting>,
}

impl Model for Follower {
    ghost use Rattle.std.specs.Prelude.{length};
    ghost use Rattle.follow_core.specs.Follower.{FollowerState};
    ghost use Rattle.follower_steps.specs.Steps.{AreAhead};
    ghost use Rattle.contract_tree.specs.contracts.tree.Contract as contracts;
    ghost use Rattle.std.specs.Coded.{codes};

    ghost Value = { FollowerState };

    ghost coded = { Prim.hlevel (codes, contracts.the_row.coded) };

    ghost view = { λ follower. record
        { node = follower.node; waiting = follower.waiting.items } };

    ghost invariant = { λ follower. AreAhead (length follower.node.chain.digests)
        follower.waiting.items };
}

impl Follower {
    /// The follower of a node, for which no block waits yet. It takes no memory.
    pub fn new(alloc: Global, node: Node) -> Follower
        ensures { result ≡ record { node = node; waiting = [] } }
    {
        Follower {
            node,
            waiting: Vec::new(alloc),
        }
    }

    /// How many blocks wait: at most `MAX_AHEAD`, and one more if `deliver` is called again before
    /// `drain` has returned `None`.
    pub fn waiting(&self) -> u32
        ensures count { result ≡ length self.now.waiting }
        ensures ahead { AreAhead (length self.now.node.chain.digests) self.now.waiting }
        ensures few { result ≤ MAX_AHEAD + 1 }
    {
        self.waiting.len() as u32
    }

    /// Whether the next block waits: `drain` makes a turn exactly if it does.
    pub fn has_due(&self) -> bool
        ensures { result ≡ is_some
            (position_of (length self.now.node.chain.digests) self.now.waiting) }
    {
        let held = self.node.blocks();
        position_of(self.waiting.as_slice(), held).is_some()
    }

    /// Its node.
    pub fn node(&self) -> &Node
        ensures { result.now ≡ self.now.node }
    {
        &self.node
    }

    /// Discards the follower.
    pub fn give_up(self) {
        let Follower {
            node,
            waiting: _waiting,
        } = self;
        node.give_up();
    }
}
