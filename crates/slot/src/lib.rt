// The 40-bit slot by value, and the 41 bytes of a fresh block. A block's slots are read and written in place (block).
#![tactic(auto)]

ghost use Rattle.std.specs.Prelude.{◌≡◌, true, false, ◌^◌, ◌<◌};
ghost use Rattle.std.proofs.Math.Option.{none};
ghost use Rattle.slot.specs.Words.{
  InRange,
  entry_of,
  freed_slot,
  locked_slot,
  slot_of,
  state_of,
  word_of,
};
ghost use Rattle.slot.specs.Blocks.{fresh_block};

pub mod block;

// How many numbers a field of a slot has: a value, a lock, the unnamed bits.
const VALUES: u64 = 65536;

const LOCKS: u64 = 16;

const SPARES: u64 = 4;

// The weight of each field in a slot's word; the unnamed bits have weight 1.
const PENDING_VALUE: u64 = SPARES;

const PENDING_PRESENT: u64 = PENDING_VALUE * VALUES;

const LOCK: u64 = PENDING_PRESENT * 2;

const VALUE: u64 = LOCK * LOCKS;

const PRESENT: u64 = VALUE * VALUES;

// The bit of a block's first byte that says 'held'.
pub const HELD: u8 = 128;

// A present bit and a value. It is no Option, since an absent state of a slot may have any value, which `slot_of` reads
// and `word_of` writes again.
#[derive(Clone, Copy)]
pub struct Entry {
    pub present: bool,
    pub value: u16,
}

// A slot: its committed state, its lock (0 is none, else the transaction), its pending state and its two unnamed bits.
#[derive(Clone, Copy)]
pub struct Slot {
    pub committed: Entry,
    pub lock: u8,
    pub pending: Entry,
    pub spare: u8,
}

impl Entry {
    // No value.
    pub fn absent() -> Entry
        ensures { result ≡ entry_of none }
    {
        Entry {
            present: false,
            value: 0,
        }
    }

    // The same state; an absence has value 0.
    pub fn plain(self) -> Entry
        ensures { result ≡ entry_of (state_of self) }
    {
        if self.present { self } else { Entry::absent() }
    }
}

impl Slot {
    // The slot that a number of 40 bits shows.
    pub fn from_word(n: u64) -> Slot
        requires { n < 2 ^ 40 }
        ensures { result ≡ slot_of n }
    {
        Slot {
            committed: Entry {
                present: n / PRESENT % 2 == 1,
                value: (n / VALUE % VALUES) as u16,
            },
            lock: (n / LOCK % LOCKS) as u8,
            pending: Entry {
                present: n / PENDING_PRESENT % 2 == 1,
                value: (n / PENDING_VALUE % VALUES) as u16,
            },
            spare: (n % SPARES) as u8,
        }
    }

    // The number that shows the slot.
    pub fn to_word(self) -> u64
        requires { InRange self }
        ensures { (result ≡ word_of self) × (result < 2 ^ 40) }
    {
        let committed = self.committed;
        let pending = self.pending;
        u64::from(committed.present) * PRESENT
            + committed.value as u64 * VALUE
            + self.lock as u64 * LOCK
            + u64::from(pending.present) * PENDING_PRESENT
            + pending.value as u64 * PENDING_VALUE
            + self.spare as u64
    }

    // The slot locked by t with a pending state.
    pub fn lock_by(mut self, t: u8, pending: Entry) -> Slot
        ensures { result ≡ locked_slot t (state_of pending) self }
    {
        self.lock = t;
        self.pending = pending.plain();
        self
    }

    // The slot after its transaction has ended and its pending state is taken.
    pub fn take(mut self) -> Slot
        ensures { result ≡ freed_slot true self }
    {
        let taken = self.pending;
        self.committed = taken.plain();
        self.lock = 0;
        self.pending = Entry::absent();
        self
    }

    // The slot after its transaction has ended and its pending state is dropped.
    pub fn drop(mut self) -> Slot
        ensures { result ≡ freed_slot false self }
    {
        self.lock = 0;
        self.pending = Entry::absent();
        self
    }

    // The slot after its transaction has ended: its pending state is taken or dropped, as the call that ends it says. A
    // closure in the place of the bool would say no more, and `freed_slot` has it as a value.
    pub fn free(self, take: bool) -> Slot
        ensures { result ≡ freed_slot take self }
    {
        if take { self.take() } else { self.drop() }
    }
}

// A held block with no records.
pub fn fresh_block() -> [u8; image::BLOCK_SIZE]
    ensures { result ≡ fresh_block.0 }
{
    let mut block = [0u8; image::BLOCK_SIZE];
    block[0] = HELD;
    block
}
