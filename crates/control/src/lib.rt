// The control part, as a struct by value: every change yields a whole new one.
#![tactic(auto)]

ghost use Rattle.std.specs.Prelude.{◌≡◌, cond, true, suc, ◌+◌, ◌-◌, ◌<◌, eqb};
ghost use Rattle.image.specs.Layout.{card_count, tran_bound, most_active};
ghost use Rattle.mask.specs.Masks.{bit_of, byte, no_cards, with_card, without_card};
ghost use Rattle.mask.specs.Pairs.{no_pairs};
ghost use Rattle.mask.specs.Placements.{by_table, from_mask, is_by_rails};
ghost use Rattle.method.specs.ControlPart.{
  begun_at,
  started,
  with_cards,
  opened,
  closed,
  added,
  only_newest,
  halted,
  is_open,
  part,
};
ghost use Rattle.control.specs.ControlBytes.{table_mark_in};
ghost use Rattle.control.specs.Meaning.{meaning, newest_mask, kept_home, with_mask, Counted, Is};
ghost use Rattle.control.specs.Serials.{first_serial, serial_bound};
ghost use Rattle.control.specs.Stamps.{stamp_by, stamp_of};

pub mod codec;
pub mod pairs;
pub mod serials;
pub mod sites;
pub mod stamps;

use codec::{FIELD, OPEN};
use image::{Card, TRAN_COUNT, Tran};
use stamps::Stamp;

// As many masks as active placements at most.
pub const MASK_COUNT: usize = image::MOST_ACTIVE as usize;

// The marks of the oldest placement: for rails the highest bit of the byte, for a table the highest of its lower half.
pub const FIRST_MARK: u8 = 0x80;

pub const FIRST_TABLE_MARK: u8 = FIRST_MARK >> MASK_COUNT;

// The masks are of the active placements, oldest first, and so are the marks, highest bit first. The pairs of placements
// by table stay in the image. A home is the transaction's byte, transaction 1 first. The serial is the newest placement's.
// Nothing is allocated, so the masks are an array with their number, as the image keeps them (`struct_of`).
#[derive(Clone, Copy)]
pub struct Control {
    pub stopped: bool,
    pub count: u8,
    pub masks: [u8; MASK_COUNT],
    pub working: u8,
    pub failed: u8,
    pub marks: u8,
    pub homes: [u8; TRAN_COUNT],
    pub serial: u32,
}

impl Control {
    // The mask's cards work and are the one placement, by rails, with the first serial; none failed, none open.
    pub fn started(mask: u8) -> Control
        ensures { Is result (started (from_mask (byte mask)) (byte mask) no_cards tt first_serial) }
    {
        Control {
            stopped: false,
            count: 1,
            masks: [mask, 0, 0, 0],
            working: mask,
            failed: 0,
            marks: FIRST_MARK,
            homes: [0u8; TRAN_COUNT],
            serial: serials::FIRST,
        }
    }

    // Whether the transaction is open.
    pub fn is_open(self, tran: Tran) -> bool
        requires { (0 < tran.0) × (tran.0 < tran_bound) }
        ensures { result ≡ is_open (meaning self) tran.0 }
    {
        let i = (tran.0 - 1) as usize;
        self.homes[i] >= OPEN
    }

    // The newest placement's mask.
    pub fn newest_mask(self) -> u8
        requires { Counted self }
        ensures { result ≡ newest_mask self }
    {
        let i = (self.count - 1) as usize;
        self.masks[i]
    }

    // Its stamp.
    pub fn stamp(self) -> Stamp
        requires { Counted self }
        ensures { stamp_by result ≡ stamp_of (meaning self) }
    {
        Stamp {
            serial: self.serial,
            mask: self.newest_mask(),
        }
    }

    // Whether the newest placement is by table.
    fn newest_by_table(self) -> bool
        requires { Counted self }
        ensures { result ≡ table_mark_in self.marks (self.count - 1) }
    {
        (self.marks & (FIRST_TABLE_MARK >> (self.count - 1))) != 0
    }

    // Whether it is by rails.
    pub fn newest_by_rails(self) -> bool
        requires { Counted self }
        ensures { result ≡ is_by_rails (meaning self).newest.choice }
    {
        !self.newest_by_table() && (self.marks & (FIRST_MARK >> (self.count - 1))) != 0
    }

    // The transaction opens with its home.
    pub fn begin(mut self, tran: Tran, home: Card) -> Self
        requires counted { Counted self }
        requires tran_nonzero { (0 < tran.0) × (tran.0 < tran_bound) }
        requires home_lt_card_count { home.0 < card_count }
        ensures { Is result (opened (meaning self) tran.0 home.0) }
    {
        let i = (tran.0 - 1) as usize;
        self.homes[i] = OPEN + home.0 * FIELD;
        self
    }

    // The transaction closes.
    pub fn close(mut self, tran: Tran) -> Self
        requires counted { Counted self }
        requires tran_nonzero { (0 < tran.0) × (tran.0 < tran_bound) }
        ensures { Is result (closed (meaning self) (λ x. eqb x tran.0)) }
    {
        let i = (tran.0 - 1) as usize;
        self.homes[i] = 0;
        self
    }

    // What was begun at the card closes.
    pub fn close_at(mut self, card: Card) -> Self
        requires { Counted self }
        ensures { Is result (closed (meaning self) (begun_at (meaning self) card.0)) }
    {
        for home in self.homes.iter_mut() {
            *home = kept_home(card, *home);
        }
        self
    }

    // One mask more with this mark, beside marks of those that count, and the next serial.
    fn with_mask(mut self, mask: u8, mark: u8) -> Self
        requires counted { Counted self }
        requires count_lt_most_active { self.count < most_active }
        requires serial_lt_serial_bound { self.serial < serial_bound }
        ensures { result ≡ with_mask self mask mark }
    {
        let i = self.count as usize;
        self.masks[i] = mask;
        self.marks = codec::clean_marks(self.count, self.marks) | mark;
        self.count += 1;
        self.serial = serials::next(self.serial);
        self
    }

    // A placement of the mask by rails becomes the newest, with the next serial.
    pub fn add(self, mask: u8) -> Self
        requires counted { Counted self }
        requires count_lt_most_active { self.count < most_active }
        requires serial_lt_serial_bound { self.serial < serial_bound }
        ensures { Is result (added (meaning self) (from_mask (byte mask)) (suc self.serial)) }
    {
        self.with_mask(mask, FIRST_MARK >> self.count)
    }

    // One of the mask by table becomes the newest; its pairs are not in the struct.
    pub fn add_table(self, mask: u8) -> Self
        requires counted { Counted self }
        requires count_lt_most_active { self.count < most_active }
        requires serial_lt_serial_bound { self.serial < serial_bound }
        ensures { Is result (added (meaning self) (record { mask = byte mask; choice = by_table no_pairs }) (suc self.serial)) }
    {
        self.with_mask(mask, FIRST_TABLE_MARK >> self.count)
    }

    // The newest placement's mark, as the oldest one's.
    fn moved_mark(self) -> u8
        requires { Counted self }
        ensures { result ≡ cond (table_mark_in self.marks (self.count - 1)) (bit_of most_active)
            (cond (is_by_rails (meaning self).newest.choice) (bit_of 0) 0) }
    {
        if self.newest_by_table() {
            return FIRST_TABLE_MARK;
        }
        if self.newest_by_rails() {
            return FIRST_MARK;
        }
        0
    }

    // Only the newest placement remains, and its mark moves with it.
    pub fn retire(mut self) -> Self
        requires { Counted self }
        ensures { Is result (only_newest (meaning self)) }
    {
        let newest = self.newest_mask();
        self.marks = self.moved_mark();
        self.masks = [newest, 0, 0, 0];
        self.count = 1;
        self
    }

    // The card no longer works and is marked failed.
    pub fn mark_failed(mut self, card: Card) -> Self
        requires counted { Counted self }
        requires card_lt_card_count { card.0 < card_count }
        ensures { Is result (with_cards (meaning self)
            (without_card (meaning self).working card.0) (with_card (meaning self).failed card.0)) }
    {
        self.working = mask::without_card(self.working, card);
        self.failed = mask::with_card(self.failed, card);
        self
    }

    // The card works, and a failed mark is cleared.
    pub fn admit(mut self, card: Card) -> Self
        requires counted { Counted self }
        requires card_lt_card_count { card.0 < card_count }
        ensures { Is result (with_cards (meaning self)
            (with_card (meaning self).working card.0) (without_card (meaning self).failed card.0)) }
    {
        self.working = mask::with_card(self.working, card);
        self.failed = mask::without_card(self.failed, card);
        self
    }

    // The card no longer works.
    pub fn dismiss(mut self, card: Card) -> Self
        requires counted { Counted self }
        requires card_lt_card_count { card.0 < card_count }
        ensures { Is result (with_cards (meaning self) (without_card (meaning self).working card.0) (meaning self).failed) }
    {
        self.working = mask::without_card(self.working, card);
        self
    }

    // The store stops: nothing is open.
    pub fn halt(mut self) -> Self
        requires { Counted self }
        ensures { Is result (halted (meaning self)) }
    {
        self.stopped = true;
        self.homes = [0u8; TRAN_COUNT];
        self
    }

    // The store stops or runs, and all else is as it was.
    pub fn rest(mut self, stopped: bool) -> Self
        requires { Counted self }
        ensures { Is result (part stopped (meaning self).older (meaning self).newest (meaning self).working
            (meaning self).failed (meaning self).home (meaning self).setting (meaning self).serial) }
    {
        self.stopped = stopped;
        self
    }
}

// A transaction's byte once what was begun at the card has closed.
fn kept_home(card: Card, b: u8) -> u8
    ensures { result ≡ kept_home card.0 b }
{
    if codec::is_home(b, card) {
        return 0;
    }
    b
}
