// A block's eight slots, read and written in place in a lent part of a table: 41 bytes, of which each slot has five.
ghost use Rattle.std.specs.Prelude.{◌≡◌, false, ◌^◌, ◌<◌, length};
ghost use Rattle.lists.specs.Tests.{one_if};
ghost use Rattle.image.specs.Layout.{block_size, slot_count, tran_bound};
ghost use Rattle.slot.specs.Words.{InRange, state_of};
ghost use Rattle.slot.specs.Blocks.{
  some_locked,
  any_picked,
  committed_count,
  end_slots,
  ended_block,
  ended_slot,
  in_set,
  is_committed,
  is_held,
  is_picked,
  joined_locks,
  lock_slot,
  of_list,
  put_slot,
  shared_bits,
  slot_at,
  word_at,
};

use crate::{Entry, HELD, Slot};
use image::{SLOT_COUNT, SLOT_SIZE};

// The byte of a slot that has its lock, and the weight and the bound of the lock there.
const LOCK_AT: usize = 3;

const LOCK: u8 = 8;

const LOCK_BOUND: u8 = 16;

// The weight of the present bit in the first byte of a slot.
const COMMITTED: u8 = 128;

// Writes 16 bits into both halves of 32.
const TWICE: u32 = 65537;

// The sets of the numbers below 16 that lack one bit.
const LACK_1: u16 = 0x5555;

const LACK_2: u16 = 0x3333;

const LACK_4: u16 = 0x0F0F;

const LACK_8: u16 = 0x00FF;

// Whether the block is held.
pub fn is_held(block: &[u8]) -> bool
    requires { length block.now ≡ block_size }
    ensures { result ≡ is_held (of_list block.now) }
{
    block[0] >= HELD
}

// The 40 bits of slot i. The library reads numbers of 8 bytes, for which the 5 would have to be copied behind 3 zeros.
fn word_at(block: &[u8], i: usize) -> u64
    requires block_len { length block.now ≡ block_size }
    requires i_lt_slot_count { i < slot_count }
    ensures { (result ≡ word_at (of_list block.now) i) × (result < 2 ^ 40) }
{
    let at = 1 + i * SLOT_SIZE;
    let a = u64::from(block[at]);
    let b = u64::from(block[at + 1]);
    let c = u64::from(block[at + 2]);
    let d = u64::from(block[at + 3]);
    let e = u64::from(block[at + 4]);
    (((a * 256 + b) * 256 + c) * 256 + d) * 256 + e
}

// Slot i.
pub fn slot_at(block: &[u8], i: usize) -> Slot
    requires block_len { length block.now ≡ block_size }
    requires i_lt_slot_count { i < slot_count }
    ensures { result ≡ slot_at (of_list block.now) i }
{
    Slot::from_word(word_at(block, i))
}

// Whether a transaction of the set locks slot i: one byte is read. The set stands in both halves of 32 bits, and the
// five highest bits of the byte choose a bit there: the highest of them is no bit of the lock, and chooses the half.
fn is_picked(block: &[u8], i: usize, set: u16) -> bool
    requires block_len { length block.now ≡ block_size }
    requires i_lt_slot_count { i < slot_count }
    ensures { result ≡ is_picked (in_set set) (of_list block.now) i }
{
    let n = block[LOCK_AT + i * SLOT_SIZE] / LOCK;
    ((set as u32 * TWICE) >> n) % 2 == 1
}

// The eight locks, joined bit by bit by halves, as `joined` has them.
fn joined_locks(block: &[u8]) -> u8
    requires { length block.now ≡ block_size }
    ensures { result ≡ joined_locks (of_list block.now) }
{
    let a = block[LOCK_AT] | block[LOCK_AT + SLOT_SIZE];
    let b = block[LOCK_AT + 2 * SLOT_SIZE] | block[LOCK_AT + 3 * SLOT_SIZE];
    let c = block[LOCK_AT + 4 * SLOT_SIZE] | block[LOCK_AT + 5 * SLOT_SIZE];
    let d = block[LOCK_AT + 6 * SLOT_SIZE] | block[LOCK_AT + 7 * SLOT_SIZE];
    ((a | b) | (c | d)) / LOCK % LOCK_BOUND
}

// Whether a transaction locks some slot.
pub fn any_locked(block: &[u8]) -> bool
    requires { length block.now ≡ block_size }
    ensures { result ≡ some_locked (of_list block.now) }
{
    joined_locks(block) != 0
}

// Slot i is written, byte by byte as `word_at` reads it.
fn put_slot(block: &mut [u8], i: usize, s: Slot)
    requires block_len { length block.old ≡ block_size }
    requires i_lt_slot_count { (i < slot_count) × InRange s }
    ensures { block.new ≡ (put_slot (of_list block.old) i s).0 }
{
    let at = 1 + i * SLOT_SIZE;
    let e = s.to_word();
    let d = e / 256;
    let c = d / 256;
    let b = c / 256;
    let a = b / 256;
    block[at] = (a % 256) as u8;
    block[at + 1] = (b % 256) as u8;
    block[at + 2] = (c % 256) as u8;
    block[at + 3] = (d % 256) as u8;
    block[at + 4] = (e % 256) as u8;
}

// Slot i is locked by t with a pending state.
pub fn lock_slot(block: &mut [u8], i: usize, t: u8, pending: Entry)
    requires block_len { length block.old ≡ block_size }
    requires i_lt_slot_count { (i < slot_count) × (t < tran_bound) }
    ensures { block.new ≡ (lock_slot (of_list block.old) i t (state_of pending)).0 }
{
    let s = slot_at(block, i).lock_by(t, pending);
    put_slot(block, i, s);
}

// Slot i ends if the set has its transaction.
fn end_slot(block: &mut [u8], i: usize, take: bool, set: u16)
    requires block_len { length block.old ≡ block_size }
    requires i_lt_slot_count { i < slot_count }
    ensures { block.new ≡ ended_slot take (in_set set) i block.old }
{
    if is_picked(block, i, set) {
        let s = slot_at(block, i).free(take);
        put_slot(block, i, s);
    }
}

// The transactions of the set end: each slot that one of them locks takes, or drops, its pending state.
fn end_slots(block: &mut [u8], take: bool, set: u16)
    requires { length block.old ≡ block_size }
    ensures { block.new ≡ (end_slots take (in_set set) (of_list block.old)).0 }
{
    for i in 0..SLOT_COUNT {
        end_slot(block, i, take, set);
    }
}

// The bits that every number of the set has: one that no number of the set lacks.
fn shared_bits(set: u16) -> u8
    ensures { result ≡ shared_bits set }
{
    let a = if set & LACK_1 == 0 { 1 } else { 0 };
    let b = if set & LACK_2 == 0 { 2 } else { 0 };
    let c = if set & LACK_4 == 0 { 4 } else { 0 };
    let d = if set & LACK_8 == 0 { 8 } else { 0 };
    a + b + c + d
}

// Whether a transaction of the set can lock a slot, by one look at all locks: if not, none does. A set that has 0 may
// pick a slot that nobody locks.
fn may_pick(block: &[u8], set: u16) -> bool
    requires { length block.now ≡ block_size }
    ensures { result ≡ false → any_picked (in_set set) (of_list block.now) ≡ false }
{
    if set % 2 == 1 {
        return true;
    }
    let joined = joined_locks(block);
    if joined == 0 {
        return false;
    }
    let shared = shared_bits(set);
    (joined & shared) == shared
}

// The transactions of the set end in the block if it is held. A block whose locks show that none of them locks a slot
// is passed.
pub fn end_held(block: &mut [u8], take: bool, set: u16)
    requires { length block.old ≡ block_size }
    ensures { block.new ≡ ended_block take (in_set set) block.old }
{
    if is_held(block) && may_pick(block, set) {
        end_slots(block, take, set);
    }
}

// 1 if slot i has a committed value, else 0: the highest bit of its first byte.
fn committed_at(block: &[u8], i: usize) -> u8
    requires block_len { length block.now ≡ block_size }
    requires i_lt_slot_count { i < slot_count }
    ensures { (result ≡ one_if (is_committed (of_list block.now) i)) × (result < 2) }
{
    block[1 + i * SLOT_SIZE] / COMMITTED
}

// How many slots have a committed value.
pub fn committed_count(block: &[u8]) -> u8
    requires { length block.now ≡ block_size }
    ensures { result ≡ committed_count (of_list block.now) }
{
    let mut n = 0;
    for i in 0..SLOT_COUNT {
        n += committed_at(block, i);
    }
    n
}
