//! A machine in memory, which records its calls, so that a crash at any of them can be tried.

ghost use Rattle.std.specs.{
  Prelude.{◌≡◌, ◌+◌, ◌<◌, ◌≤◌, ◌^◌, ℕ, Some, true, [], ◌∷◌, ◌++◌, List, length, take, drop, filter, IfOk, IfSome, IsErr, MatchOption},
  Vec.{vec_len, vec_capacity},
  List.{slice_get},
};
ghost use Rattle.lc_base.specs.Faults.{HasCause};
ghost use Rattle.lc_io.specs.{Disk.{Stays}, Outside.{Tells}};
ghost use Rattle.disk_model.specs.{
  Disk.{IsImage, Writes, Syncs, content_of, bytes_over},
  Crash.{crashed_machine},
  Machine.{MachineState, new_machine, now_of, disk_of, told_of, tells_of, tells_from, content_now, has_room, is_next_failing, with_call, with_disk_fault, with_wire_fault, Attempts, Makes, MakesRead, MakesWrite, MakesSync, MakesTell, FillsBuffer},
  Sound.{content_is_image},
  Marks.{kept_len, is_told, call_of, calls_of, total_len, changed_by},
};

use crate::crash::replay;
use crate::disk::Disk;
use lc_base::Memory;
use lc_io::{Clock, Failed, Room, Wire, is_failing, one_more};
use std::alloc::Global;
use std::marker::Model;

/// What a recorded call did. `at` is an offset in the content. `len` is the number of bytes
/// recorded for the call, and for a failed write the number of bytes that it was to write.
#[derive(Clone, Copy)]
pub(crate) enum Mark {
    Wrote { at: u64, len: usize },
    FailedWrite { at: u64, len: usize },
    Synced,
    Told { len: usize },
    Idle,
}

impl Mark {
    /// How many of the recorded bytes belong to this call.
    pub(crate) fn kept_len(&self) -> usize
        ensures { result ≡ kept_len self.now }
    {
        match self {
            Mark::Wrote { len, .. } | Mark::Told { len } => *len,
            Mark::FailedWrite { .. } | Mark::Synced | Mark::Idle => 0,
        }
    }

    /// Whether the call printed bytes.
    fn is_told(&self) -> bool
        ensures { result ≡ is_told self.now }
    {
        matches!(self, Mark::Told { .. })
    }
}

/// A machine in memory: a disk and a wire with one clock, whose moment is the number of calls made.
/// It records all calls, in memory that it takes when it is made. It fails at given calls, and at
/// those that do not fit its room; the latter take no number and are not recorded.
#[derive(Drop)]
pub struct MemMachine {
    first: Vec<u8>,
    content: Vec<u8>,
    marks: Vec<Mark>,
    bytes: Vec<u8>,
    room: Room,
    failing: Vec<u64>,
    disk_faults: u64,
    wire_faults: u64,
}

impl Model for MemMachine {
    ghost use Rattle.disk_model.specs.Machine.{MachineState};
    ghost use Rattle.disk_model.specs.Marks.{machine_state, IsSoundInside};

    ghost Value = { MachineState };

    ghost view = { machine_state };

    ghost invariant = { IsSoundInside };
}

/// Records one more call, for which there is room.
#[tactic(auto, using(crate::proofs::Keeping::calls_append, crate::proofs::Keeping::total_len_append))]
fn keep(marks: &mut Vec<Mark>, kept: &mut Vec<u8>, mark: Mark, bytes: &[u8])
    requires len { kept_len mark ≡ length bytes.now }
    requires mark_room { vec_len marks.old < vec_capacity marks.old }
    requires byte_room { vec_len kept.old + length bytes.now ≤ vec_capacity kept.old }
    requires whole { total_len marks.old.items ≡ vec_len kept.old }
    ensures calls { calls_of marks.new.items kept.new.items ≡ calls_of marks.old.items kept.old.items ++ call_of mark bytes.now ∷ [] }
    ensures whole { total_len marks.new.items ≡ vec_len kept.new }
    ensures len { vec_len kept.new ≡ vec_len kept.old + length bytes.now }
    ensures marks_len { vec_len marks.new ≡ vec_len marks.old + 1 }
    ensures mark_room_stays { vec_capacity marks.old ≤ vec_capacity marks.new }
    ensures byte_room_stays { vec_capacity kept.old ≤ vec_capacity kept.new }
{
    match marks.push(mark) {
        Ok(()) => {}
        Err(_) => unreachable!(),
    }
    match kept.extend_from_slice(bytes) {
        Ok(()) => {}
        Err(_) => unreachable!(),
    }
}

/// Writes the bytes at an offset, over those that are there and past the end. There is memory for
/// them.
pub(crate) fn overwrite(content: &mut Vec<u8>, at: usize, bytes: &[u8])
    requires within { at ≤ vec_len content.old }
    requires room { vec_len content.old + length bytes.now ≤ vec_capacity content.old }
    ensures content { content.new.items ≡ bytes_over at bytes.now content.old.items }
    ensures room_stays { vec_capacity content.old ≤ vec_capacity content.new }
{
    let over = bytes.len().min(content.len() - at);
    content[at..at + over].copy_from_slice(&bytes[..over]);
    match content.extend_from_slice(&bytes[over..]) {
        Ok(()) => {}
        Err(_) => unreachable!(),
    }
}

/// Does to the content what the call of this mark does.
#[tactic(auto, using(crate::proofs::Replays::overwritten_past))]
pub(crate) fn change(content: &mut Vec<u8>, mark: &Mark, bytes: &[u8])
    requires room { vec_len content.old + length bytes.now ≤ vec_capacity content.old }
    ensures content { content.new.items ≡ changed_by mark.now bytes.now content.old.items }
    ensures room_stays { vec_capacity content.old ≤ vec_capacity content.new }
{
    if let Mark::Wrote { at, .. } = mark {
        overwrite(content, (*at as usize).min(content.len()), bytes);
    }
}

/// How many of the calls printed bytes.
fn count_tells(marks: &[Mark]) -> usize
    ensures { result ≡ length (filter is_told marks.now) }
{
    marks.iter().filter(|mark| mark.is_told()).count()
}

/// The printed piece at an index, and the number of its call.
fn find_tell<'a>(marks: &[Mark], bytes: &'a [u8], index: usize) -> Option<(u64, &'a [u8])>
    requires whole { total_len marks.now ≡ length bytes.now }
    ensures { MatchOption result (length (tells_from 0 (calls_of marks.now bytes.now)) ≤ index) (λ tell. slice_get (tells_from 0 (calls_of marks.now bytes.now)) index ≡ Some (record { at = tell.0; bytes = tell.1.now })) }
{
    let mut rest = bytes;
    let mut left = index;
    for (number, mark) in marks.iter().enumerate() {
        let (own, others) = rest.split_at(mark.kept_len());
        if mark.is_told() {
            if left == 0 {
                return Some((number as u64, own));
            }
            left -= 1;
        }
        rest = others;
    }
    None
}

impl MemMachine {
    /// A machine at moment 0 whose disk holds these bytes with nothing pending, and on whose wire
    /// nothing has been printed. The calls of disk and wire whose numbers, from 0, are in `failing`
    /// fail, and so do those that do not fit the room.
    pub fn new(
        alloc: Global,
        image: &[u8],
        room: Room,
        failing: &[u64],
    ) -> Result<MemMachine, Memory>
        ensures { IfOk result (λ machine. machine ≡ new_machine image.now room.calls room.bytes failing.now) }
    {
        let mut content = Vec::with_capacity(alloc, image.len() + room.bytes as usize)?;
        overwrite(&mut content, 0, image);
        Ok(MemMachine {
            first: Vec::from_slice(alloc, image)?,
            content,
            marks: Vec::with_capacity(alloc, room.calls as usize)?,
            bytes: Vec::with_capacity(alloc, room.bytes as usize)?,
            room,
            failing: Vec::from_slice(alloc, failing)?,
            disk_faults: 0,
            wire_faults: 0,
        })
    }

    /// The content of the disk.
    pub fn image(&self) -> &[u8]
        ensures { result.now ≡ content_now self.now }
    {
        &self.content
    }

    /// The present moment: the number of calls made.
    #[tactic(auto, using(crate::proofs::Keeping::length_calls))]
    pub fn moment(&self) -> u64
        ensures { result ≡ now_of self.now }
    {
        self.marks.len() as u64
    }

    /// A machine over what a crash at a moment leaves: the first `keep` bytes that were pending
    /// then are kept, and the others are replaced by `fill`. If it is `short`, no more than was
    /// synced is left. The new machine has the same room, nothing is pending or printed, and none
    /// of its calls is to fail.
    pub fn crash(
        &self,
        alloc: Global,
        moment: u64,
        keep: u64,
        fill: u8,
        short: bool,
    ) -> Result<MemMachine, Memory>
        requires { moment ≤ now_of self.now }
        ensures exact { IfOk result (λ machine. machine ≡ crashed_machine moment keep fill short self.now) }
        ensures image { IfOk result (λ machine. IfSome (disk_of self.now moment) (λ state. IsImage state (content_now machine))) }
    {
        let disk = replay(
            alloc,
            &self.first,
            &self.marks[..moment as usize],
            &self.bytes,
        )?;
        let left = disk.crash(alloc, keep, fill, short)?;
        MemMachine::new(alloc, &left, self.room, &[])
    }

    /// How many pieces were printed.
    #[tactic(auto, using(crate::proofs::Telling::length_tells))]
    pub fn told_count(&self) -> usize
        ensures { result ≡ length (tells_of self.now) }
    {
        count_tells(&self.marks)
    }

    /// The piece at an index, from 0, and the moment at which its printing began; `None` if the
    /// index is past the end.
    pub fn told_at(&self, index: usize) -> Option<(u64, &[u8])>
        ensures { MatchOption result (length (tells_of self.now) ≤ index) (λ tell. slice_get (tells_of self.now) index ≡ Some (record { at = tell.0; bytes = tell.1.now })) }
    {
        find_tell(&self.marks, &self.bytes, index)
    }

    /// Whether a call with `count` bytes fits the room.
    #[tactic(auto, using(crate::proofs::Keeping::length_calls))]
    fn has_room(&self, count: usize) -> bool
        requires { count < 2 ^ 63 }
        ensures { result ≡ has_room self.now count }
    {
        self.marks.len() < self.room.calls as usize
            && self.bytes.len() + count <= self.room.bytes as usize
    }

    /// Whether the next call that takes a number is to fail.
    #[tactic(auto, using(crate::proofs::Keeping::length_calls))]
    fn is_next_failing(&self) -> bool
        ensures { result ≡ is_next_failing self.now }
    {
        is_failing(&self.failing, self.marks.len() as u64)
    }

    /// Makes a call that fits the room.
    #[tactic(auto, using(crate::proofs::Keeping::length_calls))]
    fn record(&mut self, mark: Mark, bytes: &[u8])
        requires len { kept_len mark ≡ length bytes.now }
        requires room { has_room self.old (length bytes.now) ≡ true }
        ensures { self.new ≡ with_call (call_of mark bytes.now) (length bytes.now) self.old }
    {
        keep(&mut self.marks, &mut self.bytes, mark, bytes);
        change(&mut self.content, &mark, bytes);
    }

    /// Makes a call and returns whether it succeeded: it is recorded as `done` or as `failed`. A
    /// call that does not fit the room is not made.
    #[tactic(auto, using(crate::proofs::Replays::room_for_none))]
    fn attempt(&mut self, done: Mark, failed: Mark, bytes: &[u8]) -> bool
        requires len { kept_len done ≡ length bytes.now }
        requires none { kept_len failed ≡ 0 }
        ensures { Attempts (length bytes.now) (call_of done bytes.now) (call_of failed []) self.old self.new result }
    {
        if !self.has_room(bytes.len()) {
            return false;
        }
        if self.is_next_failing() {
            self.record(failed, &[]);
            return false;
        }
        self.record(done, bytes);
        true
    }

    /// Counts a failed call of the disk.
    fn disk_fault(&mut self) -> Failed
        ensures exact { self.new ≡ with_disk_fault self.old }
        ensures later { self.old.disk_faults ≤ self.new.disk_faults }
    {
        self.disk_faults = one_more(self.disk_faults);
        Failed
    }

    /// Counts a failed call of the wire.
    fn wire_fault(&mut self) -> Failed
        ensures exact { self.new ≡ with_wire_fault self.old }
        ensures later { self.old.wire_faults ≤ self.new.wire_faults }
    {
        self.wire_faults = one_more(self.wire_faults);
        Failed
    }

    /// Makes a call of the disk.
    #[tactic(auto, using(crate::proofs::Replays::makes_fault))]
    fn disk_call(&mut self, done: Mark, failed: Mark, bytes: &[u8]) -> Result<(), Failed>
        requires len { kept_len done ≡ length bytes.now }
        requires none { kept_len failed ≡ 0 }
        ensures cause { HasCause self.old.disk_faults self.new.disk_faults (IsErr result) }
        ensures exact { Makes (length bytes.now) (call_of done bytes.now) (call_of failed []) with_disk_fault self.old self.new result }
    {
        if self.attempt(done, failed, bytes) {
            Ok(())
        } else {
            Err(self.disk_fault())
        }
    }
}

impl Clock for MemMachine {
    ghost now = { now_of };

    ghost told = { told_of };

    ghost wire_faults = { λ m. m.wire_faults };

    ghost disk = { disk_of };

    ghost disk_faults = { λ m. m.disk_faults };
}

impl Wire for MemMachine {
    /// Fails exactly if the number of the call is among the failing ones, or the call does not fit
    /// the room.
    #[tactic(auto, using(crate::proofs::Replays::makes_fault, crate::proofs::Replays::disk_faults_stay))]
    fn tell(&mut self, bytes: &[u8]) -> Result<(), Failed>
        ensures disk { Stays now_of disk_of self.old self.new }
        ensures disk_faults { self.new.disk_faults ≡ self.old.disk_faults }
        ensures told { Tells (now_of self.old) bytes.now (told_of self.old) (told_of self.new) result }
        ensures cause { HasCause self.old.wire_faults self.new.wire_faults (IsErr result) }
        ensures exact { MakesTell bytes.now self.old self.new result }
    {
        let told = Mark::Told { len: bytes.len() };
        if self.attempt(told, Mark::Idle, bytes) {
            Ok(())
        } else {
            Err(self.wire_fault())
        }
    }
}

/// Copies the bytes at an offset to the start of the buffer, as many as fit or as there are, and
/// returns how many.
fn copy_from(content: &[u8], at: u64, buffer: &mut [u8]) -> usize
    ensures count { result ≡ length (take (length buffer.old) (drop at content.now)) }
    ensures bytes { buffer.new ≡ take (length buffer.old) (drop at content.now) ++ drop result buffer.old }
{
    if at >= content.len() as u64 {
        return 0;
    }
    let rest = &content[at as usize..];
    let count = rest.len().min(buffer.len());
    buffer[..count].copy_from_slice(&rest[..count]);
    count
}

impl Disk for MemMachine {
    /// Fails, as each call of the disk does, exactly if the number of the call is among the failing
    /// ones, or the call does not fit the room.
    #[tactic(auto, using(crate::proofs::Replays::read_stays, crate::proofs::Replays::tells_nothing, crate::proofs::Replays::wire_faults_stay))]
    fn len(&mut self) -> Result<u64, Failed>
        ensures len { IfOk result (λ n. IfSome (content_of (disk_of self.old (now_of self.old))) (λ content. n ≡ length content)) }
        ensures disk { Stays now_of disk_of self.old self.new }
        ensures told { told_of self.new ≡ told_of self.old }
        ensures wire_faults { self.new.wire_faults ≡ self.old.wire_faults }
        ensures cause { HasCause self.old.disk_faults self.new.disk_faults (IsErr result) }
        ensures exact { MakesRead self.old self.new result }
    {
        self.disk_call(Mark::Idle, Mark::Idle, &[])?;
        Ok(self.image().len() as u64)
    }

    /// A read that fails leaves the buffer as it was.
    #[tactic(auto, using(crate::proofs::Replays::read_stays, crate::proofs::Replays::tells_nothing, crate::proofs::Replays::wire_faults_stay))]
    fn read_at(&mut self, at: u64, buffer: &mut [u8]) -> Result<usize, Failed>
        ensures bound { IfOk result (λ n. n ≤ length buffer.new) }
        ensures size { length buffer.new ≡ length buffer.old }
        ensures bytes { IfOk result (λ n. IfSome (content_of (disk_of self.old (now_of self.old)))
            (λ content. take n buffer.new ≡ take (length buffer.new) (drop at content))) }
        ensures disk { Stays now_of disk_of self.old self.new }
        ensures told { told_of self.new ≡ told_of self.old }
        ensures wire_faults { self.new.wire_faults ≡ self.old.wire_faults }
        ensures cause { HasCause self.old.disk_faults self.new.disk_faults (IsErr result) }
        ensures exact { MakesRead self.old self.new result }
        ensures buffer { FillsBuffer at (content_now self.old) result buffer.old buffer.new }
    {
        self.disk_call(Mark::Idle, Mark::Idle, &[])?;
        Ok(copy_from(self.image(), at, buffer))
    }

    /// A write that fits the room and fails leaves the content as it was, with its range pending.
    #[tactic(auto, using(crate::proofs::Replays::wire_faults_stay))]
    fn write_at(&mut self, at: u64, bytes: &[u8]) -> Result<(), Failed>
        requires within { (content : List ℕ) → content_of (disk_of self.old (now_of self.old)) ≡ Some content → at ≤ length content }
        requires fits { at + length bytes.now < 2 ^ 64 }
        ensures disk { Writes now_of disk_of self.old self.new at bytes.now result }
        ensures told { told_of self.new ≡ told_of self.old }
        ensures wire_faults { self.new.wire_faults ≡ self.old.wire_faults }
        ensures cause { HasCause self.old.disk_faults self.new.disk_faults (IsErr result) }
        ensures exact { MakesWrite at bytes.now self.old self.new result }
    {
        let len = bytes.len();
        self.disk_call(
            Mark::Wrote { at, len },
            Mark::FailedWrite { at, len },
            bytes,
        )
    }

    #[tactic(auto, using(crate::proofs::Replays::syncs, crate::proofs::Replays::tells_nothing, crate::proofs::Replays::wire_faults_stay))]
    fn sync(&mut self) -> Result<(), Failed>
        ensures disk { Syncs now_of disk_of self.old self.new result }
        ensures told { told_of self.new ≡ told_of self.old }
        ensures wire_faults { self.new.wire_faults ≡ self.old.wire_faults }
        ensures cause { HasCause self.old.disk_faults self.new.disk_faults (IsErr result) }
        ensures exact { MakesSync self.old self.new result }
    {
        self.disk_call(Mark::Synced, Mark::Idle, &[])
    }

    ghost sound = { content_is_image };
}
