//! Taking a block: it has run before it is stored, so storing it can fail for the disk only.

ghost use Rattle.std.specs.Prelude.{◌≡◌, ℕ, List, Ok, Some, IfOk, false, true};
ghost use Rattle.lc_base.specs.Faults.{HasCause};
ghost use Rattle.lc_io.specs.Scratch.{is_known, Serves};
ghost use Rattle.disk_model.specs.{Disk.{Keeps, content_of}, Leaving.{LeavesWire}};
ghost use Rattle.block_codec.specs.{Reading.{block_in}, declared.block.Block.{Block as Blocks}};
ghost use Rattle.rooted_chain.specs.{
  chain_replay.Chain.{StandsFor},
  chain_replay.Judging.{Added, judgement_of, IfNext, IsJudged, IsNextBlock},
};
ghost use Rattle.recovery.specs.Node.{
  IsNodeOf,
  IsReady,
  IsStepOf,
  logged_in,
  KeepsLog,
  IsAppendAnswer,
  IsAsJudged,
  IsNodeAfter,
  append_error,
  Blames,
  HandsBack,
  IfNode,
  is_disk_fault,
  is_scratch_fault,
  node_judgement,
  reaches_disk,
  stored_placement,
};

use crate::errors::AppendError;
use crate::node::{Appended, Node};
use crate::storing::store;
use block_codec::Block;
use block_log::DiskFault;
use disk_model::Disk;
use lc_base::{Digest, HostError, Memory};
use lc_io::Scratch;
use rooted_chain::{Judged, Marking, Replay};
use std::alloc::Global;

/// The error of a block that did not run, as an error of the node.
fn run_error(error: HostError) -> AppendError
    ensures { result ≡ append_error error }
{
    match error {
        HostError::Fault => AppendError::ScratchFault,
        HostError::Memory => AppendError::Memory,
    }
}

impl Node {
    /// Judges bytes, by the mark of the log.
    fn judge(&self, alloc: Global, bytes: &[u8]) -> Result<Judged, Memory>
        ensures judged { IfOk result (λ answer. (blocks : List Blocks)
            → StandsFor self.now.chain blocks
            → IsJudged answer
            (judgement_of (stored_placement self.now.log.is_marked) blocks (block_in bytes.now))) }
        ensures kept { IfOk result (λ answer. IsJudged answer (node_judgement self.now bytes.now)) }
        ensures next { IfOk result (λ answer. IfNext answer
            (IsNextBlock (Marking.OfLog self.now.log.is_marked) self.now.chain bytes.now)) }
    {
        let marked = self.marked();
        self.chain.judge(alloc, bytes, Marking::OfLog { marked })
    }

    /// Runs the next block of the chain, and then stores it: by then it is known that there is
    /// memory for it, and that the scratch device keeps it.
    fn add<M: Disk, S: Scratch>(
        self,
        alloc: Global,
        machine: &mut M,
        scratch: &mut S,
        block: &Block,
        digest: Digest,
        bytes: &[u8],
    ) -> Result<(Node, Appended), (Option<Node>, AppendError)>
        requires ready { IsReady self (M.disk machine.old (M.now machine.old)) (S.state scratch.old) }
        requires next { IsNextBlock (Marking.OfLog self.log.is_marked) self.chain bytes.now
            block.now digest }
        ensures answer { is_known (S.state scratch.old) ≡ true → (blocks : List Blocks)
            → IsNodeOf self (M.disk machine.old (M.now machine.old)) blocks
            → judgement_of (stored_placement self.log.is_marked) blocks (block_in bytes.now)
            ≡ Ok (Added block.now)
            → IsAppendAnswer self (M.disk machine.new (M.now machine.new)) blocks
            (Ok (Added block.now)) result }
        ensures images { is_known (S.state scratch.old) ≡ true
            → (blocks : List Blocks) (content : List ℕ)
            → IsNodeOf self (M.disk machine.old (M.now machine.old)) blocks
            → content_of (M.disk machine.old (M.now machine.old)) ≡ Some content
            → judgement_of (stored_placement self.log.is_marked) blocks (block_in bytes.now)
            ≡ Ok (Added block.now)
            → Keeps M.now M.disk machine.old machine.new
            (IsStepOf (logged_in self.log blocks) (Ok (Added block.now))) }
        ensures kept { IsAsJudged (Ok (Added block.now)) result }
        ensures log_images { KeepsLog M.now M.disk machine.old machine.new bytes.now }
        ensures node { IsNodeAfter self bytes.now result }
        ensures ready { IfNode (λ node. IsReady node (M.disk machine.new (M.now machine.new))
            (S.state scratch.new)) result }
        ensures marked { IfNode (λ node. node.log.is_marked ≡ self.log.is_marked) result }
        ensures handed { HandsBack result }
        ensures untouched { reaches_disk result ≡ false → machine.new ≡ machine.old }
        ensures wire { LeavesWire M.told M.wire_faults machine.old machine.new }
        ensures disk_cause { HasCause (M.disk_faults machine.old) (M.disk_faults machine.new)
            (Blames is_disk_fault result) }
        ensures scratch { Serves S.state S.scratch_faults scratch.old scratch.new
            (Blames is_scratch_fault result) }
    {
        let Node { chain, log } = self;
        let (chain, run, root) = match chain.with_block(alloc, scratch, block, digest) {
            Ok(done) => done,
            Err(error) => return Err((None, run_error(error))),
        };
        match store(log, machine, bytes, digest) {
            Ok(log) => {
                let added = Appended::Added {
                    number: block.number,
                    rows: run.rows.len() as u32,
                    receipts: run.receipts,
                    root,
                };
                Ok((Node { chain, log }, added))
            }
            Err(DiskFault) => {
                chain.give_up();
                Err((None, AppendError::DiskFault))
            }
        }
    }

    /// Takes bytes as a block. The next block of the chain runs and is stored; a block that the
    /// chain holds already changes nothing; and all others are refused, which returns the node with
    /// the error. The node is discarded if the disk or the scratch device fails, or if memory runs
    /// out.
    ///
    /// All memory is taken, and all calls of the scratch device are made, before the first call
    /// that changes the disk.
    pub fn append<M: Disk, S: Scratch>(
        self,
        alloc: Global,
        machine: &mut M,
        scratch: &mut S,
        bytes: &[u8],
    ) -> Result<(Node, Appended), (Option<Node>, AppendError)>
        requires ready { IsReady self (M.disk machine.old (M.now machine.old)) (S.state scratch.old) }
        // If it is known which bytes the scratch device holds: the answer is the judgement of the
        // bytes, unless a device fails or memory runs out.
        ensures answer { is_known (S.state scratch.old) ≡ true → (blocks : List Blocks)
            → IsNodeOf self (M.disk machine.old (M.now machine.old)) blocks
            → IsAppendAnswer self (M.disk machine.new (M.now machine.new)) blocks
            (judgement_of (stored_placement self.log.is_marked) blocks (block_in bytes.now))
            result }
        // A crash at any moment leaves the chain from before the call, or that with the next block.
        ensures images { is_known (S.state scratch.old) ≡ true
            → (blocks : List Blocks) (content : List ℕ)
            → IsNodeOf self (M.disk machine.old (M.now machine.old)) blocks
            → content_of (M.disk machine.old (M.now machine.old)) ≡ Some content
            → Keeps M.now M.disk machine.old machine.new
            (IsStepOf (logged_in self.log blocks)
            (judgement_of (stored_placement self.log.is_marked) blocks (block_in bytes.now))) }
        // Whether or not that is known, and so whatever the device returns: bytes are known, added
        // or refused by the digests that the node keeps, the number of its rows, and the mark, unless
        // memory runs out; and a device fails only while a block is added.
        ensures kept { IsAsJudged (node_judgement self bytes.now) result }
        // A crash at any moment leaves the chain from before the call, or that with the block that
        // the bytes spell, if rows are not counted. Nothing else depends on the device than the
        // rows, which can only refuse a block.
        ensures log_images { KeepsLog M.now M.disk machine.old machine.new bytes.now }
        // A node that is returned, with or without an error, is as it was; or if a block was added,
        // its number is that of the next one, and the node has its digest after the others, and as
        // many more rows as are reported. It is ready for the next block, and its log is marked
        // exactly if it was; and it is returned with an error exactly if the bytes are refused.
        ensures node { IsNodeAfter self bytes.now result }
        ensures ready { IfNode (λ node. IsReady node (M.disk machine.new (M.now machine.new))
            (S.state scratch.new)) result }
        ensures marked { IfNode (λ node. node.log.is_marked ≡ self.log.is_marked) result }
        ensures handed { HandsBack result }
        // If no block was stored and the disk did not fail, also after ScratchFault and Memory, the
        // disk was not touched, and the content at entry is all that a crash could have left.
        ensures untouched { reaches_disk result ≡ false → machine.new ≡ machine.old }
        ensures only_image { reaches_disk result ≡ false → (content : List ℕ)
            → content_of (M.disk machine.old (M.now machine.old)) ≡ Some content
            → Keeps M.now M.disk machine.old machine.new (λ image. image ≡ content) }
        ensures wire { LeavesWire M.told M.wire_faults machine.old machine.new }
        ensures disk_cause { HasCause (M.disk_faults machine.old) (M.disk_faults machine.new)
            (Blames is_disk_fault result) }
        ensures scratch { Serves S.state S.scratch_faults scratch.old scratch.new
            (Blames is_scratch_fault result) }
    {
        match self.judge(alloc, bytes) {
            Ok(Judged::Known { number }) => Ok((self, Appended::Known { number })),
            Ok(Judged::Next { block, digest }) => {
                self.add(alloc, machine, scratch, &block, digest, bytes)
            }
            Ok(Judged::Refused(refusal)) => Err((Some(self), AppendError::Refused(refusal))),
            Err(Memory) => {
                self.give_up();
                Err((None, AppendError::Memory))
            }
        }
    }
}
