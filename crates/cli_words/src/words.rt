//! Parsing a command: no command shares its words with another, so the order of the tests is free.

ghost use Rattle.std.specs.Prelude.{[], ◌∷◌, map, string_bytes, IfSome};
ghost use Rattle.cli_words.specs.Words.{CanBeGiven, IsCommand, IsOneCommand, IsGenerationOf, IsAlone};

use crate::formatting::fmt_of;
use crate::lighting::light_of;
use crate::packing::pack_of;
use crate::proving::{expose_of, prove_of, verify_of};
use crate::question::{Asked, Question};
use crate::questions::{ask_of, root_of, scan_of};
use crate::single::{count_of, is_text, number_of};
use lc_base::{Digest, Query};

/// The greatest number of blocks that `gen` and `load` make.
pub const MAX_GENERATED_BLOCKS: u32 = 100_000;

/// Which blocks `gen` and `load` make.
#[derive(Clone, Copy)]
pub struct Generation {
    /// Their number, from 1 to `MAX_GENERATED_BLOCKS`.
    pub blocks: u32,
    /// The seed from which they are drawn.
    pub seed: u32,
}

/// An edition of the contract language, of which `fmt` reads contracts.
#[derive(Clone, Copy)]
pub enum Edition {
    /// The first: that of the contracts that blocks deploy.
    First,
    /// The second: it has the statement `drop`.
    Second,
}

/// A version of blocks, of which `pack` makes blocks.
#[derive(Clone, Copy)]
pub enum BlockVersion {
    /// The first: that of the blocks before the mark of a log.
    First,
    /// The second: that of the blocks after it.
    Second,
}

/// What the program is asked to do.
#[derive(Clone, Copy)]
pub enum Command {
    /// `scan KIND KEY BLOCK`: answer a question over the blocks of the input.
    Scan(Query),
    /// `fmt` or `fmt 2`: print the canonical text of the contract that the input is in the first or
    /// the second edition of the language.
    Fmt(Edition),
    /// `pack` or `pack 2`: print the block file of the draft that the input is, of blocks of the
    /// first or the second version.
    Pack(BlockVersion),
    /// `gen N SEED`: print a block file of N blocks.
    Gen(Generation),
    /// `load N SEED`: add these N blocks to a chain in memory, and print what look-ups of it cost.
    Load(Generation),
    /// `append`: take the blocks of the input into the chain of the log.
    Append,
    /// `follow`: deliver the blocks of the input, in whatever order they come, to a follower whose
    /// chain is that of the log.
    Follow,
    /// `upgrade`: mark the log, so that the blocks after this have the second version.
    Upgrade,
    /// `root` or `root BLOCK`: print the root at a block of the log, which is the last one if no
    /// BLOCK is named.
    Root(Option<u32>),
    /// `KIND KEY`, `KIND KEY BLOCK`, `trace KEY BLOCK` or `range KEY FROM TO`: print the answer, the
    /// ancestors or the versions of a question over the blocks of the log.
    Ask(Asked),
    /// `prove KIND KEY BLOCK ROOTBLOCK`, `trace prove KEY BLOCK ROOTBLOCK` or
    /// `range prove KEY FROM TO ROOTBLOCK`: print a proof of them, for one who has the root at
    /// ROOTBLOCK.
    Prove {
        question: Question,
        root_at: u32,
    },
    /// `verify ROOT KIND KEY BLOCK`, `trace verify ROOT KEY BLOCK` or
    /// `range verify ROOT KEY FROM TO`: check the proof that the input is, in hex, and print what it
    /// shows.
    Verify {
        root: Digest,
        question: Question,
    },
    /// `expose ROOT KIND KEY BLOCK ROOTBLOCK`: print the first two texts, one of the proof that the
    /// input is and one of the log up to ROOTBLOCK, which differ and have one digest.
    Expose {
        root: Digest,
        query: Query,
        root_at: u32,
    },
    /// `light make`: print the light file of the log: of each block its digest, and the root at it.
    MakeLight,
    /// `light`: check the proofs that follow a light file in the input, each by its own question,
    /// and print their answers.
    Light,
}

/// The blocks of the words `WORD N SEED`; `None` exactly if the words are not of this form.
fn generation_of(words: &[String], word: &str) -> Option<Generation>
    ensures { IsGenerationOf word.now (map string_bytes words.now) result }
{
    match words {
        [first, blocks, seed] => {
            if !is_text(first.as_str(), word) {
                return None;
            }
            let blocks = count_of(blocks.as_str())?;
            match number_of(seed.as_str()) {
                Some(seed) => Some(Generation { blocks, seed }),
                None => None,
            }
        }
        _ => None,
    }
}

/// The command that this word is; `None` exactly if it is none that is a word alone.
fn command_alone(word: &str) -> Option<Command>
    ensures { IsAlone (word.now ∷ []) result }
{
    match word {
        "append" => Some(Command::Append),
        "follow" => Some(Command::Follow),
        "upgrade" => Some(Command::Upgrade),
        _ => None,
    }
}

/// The command `append`, `follow` or `upgrade`; `None` exactly if the words are no such command.
fn alone_of(words: &[String]) -> Option<Command>
    ensures { IsAlone (map string_bytes words.now) result }
{
    match words {
        [only] => command_alone(only.as_str()),
        _ => None,
    }
}

/// The command that the words are; `None` exactly if they are no command.
pub fn command_of(words: &[String]) -> Option<Command>
    ensures one { IsOneCommand (map string_bytes words.now) result }
    ensures given { IfSome result CanBeGiven }
{
    parse_command(words)
}

fn parse_command(words: &[String]) -> Option<Command>
    ensures { IsCommand (map string_bytes words.now) result }
{
    if let Some(edition) = fmt_of(words) {
        return Some(Command::Fmt(edition));
    }
    if let Some(version) = pack_of(words) {
        return Some(Command::Pack(version));
    }
    if let Some(command) = alone_of(words) {
        return Some(command);
    }
    if let Some(generation) = generation_of(words, "gen") {
        return Some(Command::Gen(generation));
    }
    if let Some(generation) = generation_of(words, "load") {
        return Some(Command::Load(generation));
    }
    if let Some(query) = scan_of(words) {
        return Some(Command::Scan(query));
    }
    if let Some(command) = prove_of(words) {
        return Some(command);
    }
    if let Some(command) = verify_of(words) {
        return Some(command);
    }
    if let Some(command) = expose_of(words) {
        return Some(command);
    }
    if let Some(command) = light_of(words) {
        return Some(command);
    }
    if let Some(asked) = ask_of(words) {
        return Some(Command::Ask(asked));
    }
    root_of(words)
}
