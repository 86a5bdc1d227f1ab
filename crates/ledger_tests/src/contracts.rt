//! Blocks of calls over a host that answers alike or fails: how calls end, what they cost, and what
//! they write.

ghost use Rattle.std.specs.Prelude.{◌≡◌, refl, [], None, IfSome, IfOk, IsErrOf};
ghost use Rattle.lc_base.specs.Faults.{HasCause};

use crate::lineages::are_versions;
use block_codec::{FIRST_VERSION, SECOND_VERSION, decode};
use chain_exec::{BlockRun, run_block};
use chain_pack::pack;
use contract_check::Checked;
use lc_base::{
    Dep, Host, HostError, Key, Resources, Row, TextList, TxStatus, Value, Version, Zeros,
};
use lc_io::one_more;
use std::alloc::Global;
use world_state::World;

/// The draft of two blocks: a contract, and a call of its function, which asks each kind of question.
const ASKING: &[u8] = br#"[
  [{"deploy": {"sender": "u", "name": "c", "source": "fn ask() {\n  let of = \"raw/a\";\n  let n = hist_int(of, 0) + hist_block(of, 0) + hist_tx(of, 0) + seen(of, 0);\n  let counts = back_count(of, 0) + fwd_count(of, 0);\n  let blocks = back_block(of, 0, 0) + fwd_block(of, 0, 0);\n  let keys = back_key(of, 0, 0) ++ fwd_key(of, 0, 0);\n}"}}],
  [{"call": {"sender": "u", "contract": "c", "function": "ask", "args": [], "budget": 10000}}]
]"#;

/// The number of questions that the function asks.
const QUESTIONS: u64 = 10;
/// The failing call of a host that never fails.
const NEVER: u64 = u64::MAX;

/// A host that returns one answer to each kind of question, and fails at one call.
#[derive(Drop)]
struct FailingHost {
    /// The number of the call that fails, from 0.
    failing: u64,
    /// The number of calls so far.
    calls: u64,
    /// The number of calls that failed.
    faults: u64,
}

impl FailingHost {
    /// Counts a call, which may be the one that fails.
    fn call(&mut self) -> Result<(), HostError>
        ensures { HasCause self.old.faults self.new.faults (IsErrOf result HostError.Fault) }
    {
        let number = self.calls;
        self.calls = one_more(number);
        if number == self.failing {
            self.faults = one_more(self.faults);
            return Err(HostError::Fault);
        }
        Ok(())
    }

    /// Answers that the version of a key is one of block 0, unless the call fails.
    fn version_of(&mut self, key: &Key) -> Result<Option<Dep>, HostError>
        ensures { HasCause self.old.faults self.new.faults (IsErrOf result HostError.Fault) }
    {
        self.call()?;
        Ok(Some(Dep {
            key: *key,
            block: 0,
        }))
    }
}

impl Host for FailingHost {
    ghost rows = { λ _. None };

    ghost host_faults = { λ s. s.faults };

    ghost ready = { λ _. Unit {0} };

    ghost same = { λ _ _. Unit {0} };

    fn hist(&mut self, _alloc: Global, _key: &Key, _at: u32) -> Result<Option<Version>, HostError> {
        self.call()?;
        Ok(Some(Version {
            block: 0,
            tx: 0,
            value: Value::Int(1),
        }))
    }

    fn back_count(&mut self, _key: &Key, _at: u32) -> Result<Option<u32>, HostError> {
        self.call()?;
        Ok(Some(1))
    }

    fn back_at(&mut self, key: &Key, _at: u32, _index: u32) -> Result<Option<Dep>, HostError> {
        self.version_of(key)
    }

    fn fwd_count(&mut self, _key: &Key, _at: u32) -> Result<Option<u64>, HostError> {
        self.call()?;
        Ok(Some(1))
    }

    fn fwd_at(&mut self, key: &Key, _at: u32, _index: u64) -> Result<Option<Dep>, HostError> {
        self.version_of(key)
    }

    ghost same_refl = { λ _. tt };

    ghost same_trans = { λ _ _ _ _ _. tt };

    ghost same_ready = { λ _ _ _ ready. ready };

    ghost same_rows = { λ _ _ _. refl };
}

/// Drops a state. It has many parts, so this is the one place where it is dropped.
fn discard(_world: World<Checked>) {}

/// The key that the functions put, drop and read.
const KEY: &[u8] = b"c/a";

/// A row of that key: its int, `None` if it drops the key, and the versions that it is derived
/// from.
type Written = (Option<i64>, &'static [(&'static [u8], u32)]);

/// How the only transaction of a block must end, its cost, `None` if any is good, and the only row
/// that it must write, if any.
type Step = (TxStatus, Option<u32>, Option<Written>);

/// Whether a row of the key is this one.
fn is_written(row: &Row, wanted: Written) -> bool {
    let int = match row.value {
        Value::Int(number) => Some(number),
        Value::Gone => None,
        Value::Text(_) => return false,
    };
    row.key.as_bytes() == KEY && int == wanted.0 && are_versions(row.deps.as_slice(), wanted.1)
}

/// Whether the rows of a block are the only one that it must write, if any.
fn are_written(rows: &[Row], wanted: Option<Written>) -> bool {
    match (rows, wanted) {
        ([], None) => true,
        ([row], Some(wanted)) => is_written(row, wanted),
        _ => false,
    }
}

/// Whether a block ended as it must, and wrote what it must.
fn is_done(run: &BlockRun, step: &Step) -> bool {
    let [receipt] = run.receipts.as_slice() else {
        return false;
    };
    let (status, cost, row) = *step;
    receipt.status == status
        && receipt.cost == cost.unwrap_or(receipt.cost)
        && are_written(run.rows.as_slice(), row)
}

/// Runs a block. Whether it ends as it must, and writes what it must.
fn runs(
    alloc: Global,
    host: &mut FailingHost,
    world: &mut World<Checked>,
    bytes: &[u8],
    step: &Step,
) -> Result<bool, HostError>
    requires no_rows { world.old.staged ≡ [] }
    requires no_codes { world.old.staged_codes ≡ [] }
{
    let Ok(block) = decode(alloc, bytes) else {
        return Ok(false);
    };
    match run_block(alloc, host, world, &block) {
        Ok(run) => Ok(is_done(&run, step)),
        Err(error) => Err(error),
    }
}

/// The state after a block; `None` if it doesn't end or write as it must.
fn after(
    alloc: Global,
    host: &mut FailingHost,
    before: World<Checked>,
    bytes: &[u8],
    step: &Step,
) -> Result<Option<World<Checked>>, HostError>
    requires no_rows { before.staged ≡ [] }
    requires no_codes { before.staged_codes ≡ [] }
    ensures no_rows { IfOk result (λ after. IfSome after (λ world. world.staged ≡ [])) }
    ensures no_codes { IfOk result (λ after. IfSome after (λ world. world.staged_codes ≡ [])) }
{
    let mut world = before;
    match runs(alloc, host, &mut world, bytes, step) {
        Ok(true) => Ok(world.commit().ok()),
        ended => {
            discard(world);
            match ended {
                Ok(_) => Ok(None),
                Err(error) => Err(error),
            }
        }
    }
}

/// Whether each block of a draft ends and writes as it must.
fn run_all(
    alloc: Global,
    host: &mut FailingHost,
    blocks: &TextList,
    steps: &[Step],
) -> Result<bool, HostError> {
    let Ok(resources) = Resources::new(alloc, &Zeros) else {
        return Ok(false);
    };
    let mut world = World::new(resources);
    for pair in blocks.as_slice().iter().zip(steps) {
        let (block, step) = pair;
        world = match after(alloc, host, world, block.as_bytes(), step) {
            Ok(Some(world)) => world,
            Ok(None) => return Ok(false),
            Err(error) => return Err(error),
        };
    }
    discard(world);
    Ok(blocks.len() == steps.len())
}

/// The block of a contract.
const DEPLOYED: Step = (TxStatus::Ok, None, None);

/// Whether each block of a draft of the second version ends and writes as it must.
fn do_as_they_must(alloc: Global, draft: &[u8], steps: &[Step]) -> bool {
    let mut host = FailingHost {
        failing: NEVER,
        calls: 0,
        faults: 0,
    };
    match pack(alloc, draft, SECOND_VERSION) {
        Ok(blocks) => run_all(alloc, &mut host, &blocks, steps) == Ok(true),
        Err(_) => false,
    }
}

/// A draft of a contract of the second edition, and calls of functions that put a key, drop it, read
/// it, and drop it again.
const DROPPING: &[u8] = br#"[
  [{"deploy": {"sender": "u", "name": "c", "source": "fn put_it() { put \"c/a\" = 1; }\nfn drop_it() { if has(\"c/a\") { drop \"c/a\"; } }\nfn read_it() { let x = get_int(\"c/a\"); }"}}],
  [{"call": {"sender": "u", "contract": "c", "function": "put_it", "args": [], "budget": 100}}],
  [{"call": {"sender": "u", "contract": "c", "function": "drop_it", "args": [], "budget": 100}}],
  [{"call": {"sender": "u", "contract": "c", "function": "read_it", "args": [], "budget": 100}}],
  [{"call": {"sender": "u", "contract": "c", "function": "drop_it", "args": [], "budget": 100}}]
]"#;

/// A key that is put and dropped has no value afterwards, though it has a version.
const DROPPED: [Step; 5] = [
    DEPLOYED,
    (TxStatus::Ok, Some(19), Some((Some(1), &[]))),
    // The row of the drop is derived from the version of the key of block 1.
    (TxStatus::Ok, Some(29), Some((None, &[(b"c/a", 1)]))),
    (TxStatus::NoKey, Some(11), None),
    (TxStatus::Ok, Some(11), None),
];

#[test]
fn dropped_keys_are_gone(rt: HostRuntime) {
    assert!(rt; do_as_they_must(rt.alloc(), DROPPING, &DROPPED));
}

/// A draft of a contract of the second edition, whose function drops a key, and of its call.
const UNREAD: &[u8] = br#"[
  [{"deploy": {"sender": "u", "name": "c", "source": "fn f() { drop \"c/b\" from \"c/a\"; }"}}],
  [{"call": {"sender": "u", "contract": "c", "function": "f", "args": [], "budget": 100}}]
]"#;

/// A drop is refused that is said to be derived from a key that the call didn't read.
const REFUSED: [Step; 2] = [DEPLOYED, (TxStatus::NotRead, Some(19), None)];

#[test]
fn drops_name_what_was_read(rt: HostRuntime) {
    assert!(rt; do_as_they_must(rt.alloc(), UNREAD, &REFUSED));
}

/// The contract is taken, and the call of its function succeeds.
const ASKED: [Step; 2] = [DEPLOYED, DEPLOYED];

/// How many calls of a host the blocks make that ask, which fails at its call `failing`; `None` if
/// they end otherwise than they must: with its fault, which is counted once, or, if it never fails,
/// with success.
fn calls_made(alloc: Global, blocks: &TextList, failing: u64) -> Option<u64> {
    let mut host = FailingHost {
        failing,
        calls: 0,
        faults: 0,
    };
    let ended = run_all(alloc, &mut host, blocks, &ASKED);
    let wanted = if failing == NEVER {
        (Ok(true), 0)
    } else {
        (Err(HostError::Fault), 1)
    };
    if (ended, host.faults) == wanted {
        Some(host.calls)
    } else {
        None
    }
}

/// Whether each call of a host ends the blocks if it fails, and the host isn't called again.
fn each_ends(alloc: Global, blocks: &TextList) -> bool {
    let Some(calls) = calls_made(alloc, blocks, NEVER) else {
        return false;
    };
    for failing in 0..calls {
        if calls_made(alloc, blocks, failing) != Some(one_more(failing)) {
            return false;
        }
    }
    calls >= QUESTIONS
}

#[test]
fn each_call_of_a_host_fails(rt: HostRuntime) {
    let each = match pack(rt.alloc(), ASKING, FIRST_VERSION) {
        Ok(blocks) => each_ends(rt.alloc(), &blocks),
        Err(_) => false,
    };
    assert!(rt; each);
}
