//! A node: a chain and a log that always have the same blocks.

ghost use Rattle.std.specs.Prelude.{
  ◌≡◌,
  ◌<◌,
  ◌≤◌,
  ℕ,
  true,
  List,
  length,
  slice_get,
  Some,
  IfOk,
  IsErrOf,
  MatchOption,
};
ghost use Rattle.disk_model.specs.Disk.{IsSettled, content_of};
ghost use Rattle.lc_io.specs.Scratch.{is_known, Serves};
ghost use Rattle.block_codec.specs.{
  Placement.{most_blocks},
  declared.block.Block.{Block as Blocks},
};
ghost use Rattle.block_log.specs.Standing.{standing};
ghost use Rattle.rooted_chain.specs.{
  chain_exec.Compiled.{compiled_in},
  chain_replay.Chain.{StandsFor},
  Roots.{root_in},
};
ghost use Rattle.recovery.specs.{
  Node.{IsNodeStarted, IsReady, lineage_in, next_in_chain},
  Restoring.{ReadsLog},
};

use crate::errors::StartError;
use crate::opening::open;
use block_log::Log;
use disk_model::Disk;
use lc_base::{Digest, Resources};
use lc_io::Scratch;
use rooted_chain::{Lineage, LineageChain, ReceiptList, Replay};
use std::marker::Model;

/// The chain of the blocks that a log holds, with bodies on a scratch device, and the log.
#[derive(Drop)]
pub struct Node {
    pub(crate) chain: LineageChain,
    pub(crate) log: Log,
}

impl Model for Node {
    ghost use Rattle.rooted_chain.specs.Roots.{kept_in};
    ghost use Rattle.recovery.specs.Node.{NodeState, AreOfOneChain};
    ghost use Rattle.contract_tree.specs.contracts.tree.Contract as contracts;
    ghost use Rattle.std.specs.Coded.{codes};

    ghost Value = { NodeState };

    ghost coded = { Prim.hlevel (codes, contracts.the_row.coded) };

    ghost view = { λ node. record
        { chain = kept_in node.chain; bodies = node.chain.bodies; log = node.log } };

    ghost invariant = { λ node. AreOfOneChain (kept_in node.chain) node.log };
}

/// What became of a block that was not refused.
#[derive(Drop)]
pub enum Appended {
    /// The chain holds it already, at this number.
    Known {
        number: u32,
    },
    /// It was stored at this number. It wrote `rows` rows, there is a receipt for each of its
    /// transactions, and this is the root at it.
    Added {
        number: u32,
        rows: u32,
        receipts: ReceiptList,
        root: Digest,
    },
}

impl Node {
    /// Starts the node of the log on a disk. It writes nothing to the disk.
    pub fn start<M: Disk, S: Scratch>(
        resources: Resources,
        machine: &mut M,
        scratch: &mut S,
    ) -> Result<Node, StartError>
        requires settled { IsSettled (M.disk machine.old (M.now machine.old)) }
        // If it is known which bytes the scratch device holds, the node is that of the chain that
        // the content stands for, or the content stands for no chain.
        ensures answer { is_known (S.state scratch.old) ≡ true → (content : List ℕ)
            → content_of (M.disk machine.old (M.now machine.old)) ≡ Some content
            → IsNodeStarted (M.disk machine.new (M.now machine.new))
            (standing next_in_chain content) result }
        // Holds whether or not that is known, and whether or not the disk is known.
        ensures ready { IfOk result
            (λ node. IsReady node (M.disk machine.new (M.now machine.new)) (S.state scratch.new)) }
        ensures machine { ReadsLog M.now M.disk M.disk_faults M.told M.wire_faults machine.old
            machine.new (IsErrOf result StartError.DiskFault) }
        ensures scratch { Serves S.state S.scratch_faults scratch.old scratch.new
            (IsErrOf result StartError.ScratchFault) }
    {
        match open::<LineageChain, M, S>(resources, machine, scratch) {
            Ok((chain, log)) => Ok(Node { chain, log }),
            Err(error) => Err(error),
        }
    }

    /// The number of its blocks, at most `MAX_BLOCKS`, or `MAX_MARKED_BLOCKS` if it is marked.
    pub fn blocks(&self) -> u32
        ensures { result ≡ length self.now.chain.digests }
    {
        self.chain.len()
    }

    /// The digest of the block `at`; `None` exactly if the chain has no such block.
    pub fn digest(&self, at: u32) -> Option<Digest>
        ensures { result ≡ slice_get self.now.chain.digests at }
    {
        self.chain.digest(at)
    }

    /// The root at the block `at`; `None` exactly if the chain has no such block.
    pub fn root(&self, at: u32) -> Option<Digest>
        ensures { (blocks : List Blocks) → StandsFor self.now.chain blocks
            → MatchOption result (length blocks ≤ at)
            (λ root. (at < length blocks) × (root.0 ≡ root_in compiled_in blocks at)) }
    {
        self.chain.root(at)
    }

    /// Whether its log is marked, so that its next block has the second version. Else it has the
    /// first.
    pub fn marked(&self) -> bool
        ensures is { result ≡ self.now.log.is_marked }
        ensures few { length self.now.chain.digests ≤ most_blocks self.now.log.is_marked }
    {
        self.log.marked()
    }

    /// The lineage of its chain.
    pub fn lineage(&self) -> &Lineage
        ensures { result.now ≡ lineage_in self.now }
    {
        self.chain.lineage()
    }

    /// The lineage of its chain alone, for a command that appends nothing further. Its bodies stay
    /// where they are.
    pub fn into_lineage(self) -> Lineage
        ensures { result ≡ lineage_in self }
    {
        let Node { chain, log: _log } = self;
        chain.into_lineage()
    }

    /// Discards the node.
    pub fn give_up(self) {
        let Node { chain, log: _log } = self;
        chain.give_up();
    }
}
