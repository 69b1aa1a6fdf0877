// The slots of a record: on each holder of its block, and in a new block.
ghost use Rattle.std.specs.Prelude.{◌≡◌, ◌%◌, ◌/◌, ◌<◌};
ghost use Rattle.image.specs.Layout.{card_count, record_count, slot_count, tran_bound};
ghost use Rattle.image.specs.Parts.{Whole, block_at, put_block};
ghost use Rattle.records.specs.Access.{IsNewest};
ghost use Rattle.slot.specs.Blocks.{fresh_block, lock_slot, of_list, slot_at};
ghost use Rattle.slot.specs.Words.{state_of};
ghost use Rattle.method.specs.Rules.{lay_block, lock_holders, look, reply};
ghost use Rattle.method.specs.Slots.{locked_by_other, read_by};
ghost use Rattle.cabinet_rules.specs.Cabinet.{cabinet};
ghost use Rattle.cabinet_rules.specs.Images.{block_in, control_in, state_in};
ghost use Rattle.promise.specs.Promise.{said};
ghost use Rattle.promise.specs.Laid.{laid};
ghost use Rattle.trail.specs.Trail.{Lists, holders_in};
ghost use Rattle.records.specs.Slots.{locked_at, locked_out_in, rules_slot, seen_in};

use image::{Block, Card, Rec, Tran};
use promise::Answer;
use slot::{Entry, Slot};
use trail::Holders;

// The block of a record.
pub fn block_of(rec: Rec) -> Block
    requires { rec.0 < record_count }
    ensures { result.0 ≡ rec.0 / slot_count }
{
    Block((rec.0 as usize / image::SLOT_COUNT) as u8)
}

// Its place there.
fn place_of(rec: Rec) -> usize
    ensures { result ≡ rec.0 % slot_count }
{
    rec.0 as usize % image::SLOT_COUNT
}

// The record's slot on a card.
fn slot_on(image: &[u8], card: Card, rec: Rec) -> Slot
    requires { Whole image.now × (card.0 < card_count) × (rec.0 < record_count) }
    ensures { result ≡ slot_at (block_in image.now card.0 (rec.0 / slot_count)) (rec.0 % slot_count) }
{
    let start = image::block_address(card, block_of(rec));
    let end = start + image::BLOCK_SIZE;
    slot::block::slot_at(&image[start..end], place_of(rec))
}

// Whether the slot is locked by another number.
fn is_others(s: Slot, tran: Tran) -> bool
    ensures { result ≡ locked_by_other tran.0 (rules_slot s) }
{
    if s.lock == 0 {
        return false;
    }
    s.lock != tran.0
}

// The same of the record's slot on a card.
fn locked_on(image: &[u8], card: Card, tran: Tran, rec: Rec) -> bool
    requires { Whole image.now × (card.0 < card_count) × (rec.0 < record_count) }
    ensures { result ≡ locked_at image.now tran.0 rec.0 card.0 }
{
    is_others(slot_on(image, card, rec), tran)
}

// Row 7: some holder's slot is locked by another number.
pub fn locked_out(image: &[u8], holders: Holders, tran: Tran, rec: Rec) -> bool
    requires whole { Whole image.now × (rec.0 < record_count) }
    requires lists { Lists holders (holders_in image.now (rec.0 / slot_count)) }
    ensures { result ≡ locked_out_in image.now tran.0 rec.0 }
{
    for holder in mask::each(holders.cards) {
        if locked_on(image, holder, tran, rec) {
            return true;
        }
    }
    false
}

// What the transaction reads in a slot: its own pending state, or the committed one.
fn read_by(s: Slot, tran: Tran) -> Entry
    ensures { state_of result ≡ read_by tran.0 (rules_slot s) }
{
    if s.lock == tran.0 {
        return s.pending;
    }
    s.committed
}

// What it reads in the first holder's slot; with no holder the record is absent.
pub fn read_first(image: &[u8], holders: Holders, tran: Tran, rec: Rec) -> Entry
    requires whole { Whole image.now × (rec.0 < record_count) }
    requires lists { Lists holders (holders_in image.now (rec.0 / slot_count)) }
    ensures { state_of result ≡ read_by tran.0 (seen_in image.now rec.0) }
{
    match holders.first {
        Some(card) => read_by(slot_on(image, card, rec), tran),
        None => Entry::absent(),
    }
}

// A value, or absent.
pub fn reply(state: Entry) -> Answer
    ensures { said result ≡ reply cabinet (state_of state) }
{
    if state.present {
        return Answer::Value(state.value);
    }
    Answer::Absent
}

// Locks the record's slot on a card.
fn lock_on(image: &mut [u8], card: Card, tran: Tran, rec: Rec, pending: Entry)
    requires { Whole image.old × (card.0 < card_count) × (rec.0 < record_count) × (tran.0 < tran_bound) }
    ensures { image.new ≡ put_block image.old card.0 (rec.0 / slot_count)
        (lock_slot (of_list (block_at image.old card.0 (rec.0 / slot_count)))
        (rec.0 % slot_count) tran.0 (state_of pending)).0 }
{
    let start = image::block_address(card, block_of(rec));
    let end = start + image::BLOCK_SIZE;
    slot::block::lock_slot(&mut image[start..end], place_of(rec), tran.0, pending);
}

// The slot of each holder gets the lock and the pending state.
pub fn lock_all(image: &mut [u8], holders: Holders, tran: Tran, rec: Rec, pending: Entry)
    requires whole { Whole image.old × (rec.0 < record_count) × (tran.0 < tran_bound) }
    requires lists { Lists holders (holders_in image.old (rec.0 / slot_count)) }
    ensures { image.new ≡ laid (lock_holders cabinet (control_in image.old)
        (look cabinet (state_in image.old)) tran.0 rec.0 (state_of pending)) image.old }
{
    for holder in mask::each(holders.cards) {
        lock_on(image, holder, tran, rec, pending);
    }
}

// Puts a new block on a card, with the record's slot locked.
fn lay_on(image: &mut [u8], card: Card, tran: Tran, rec: Rec, pending: Entry)
    requires { Whole image.old × (card.0 < card_count) × (rec.0 < record_count) × (tran.0 < tran_bound) }
    ensures { image.new ≡ put_block image.old card.0 (rec.0 / slot_count)
        (lock_slot fresh_block (rec.0 % slot_count) tran.0 (state_of pending)).0 }
{
    image::put_block(image, card, block_of(rec), slot::fresh_block());
    lock_on(image, card, tran, rec, pending);
}

// Each site of the newest placement gets a new block with the record's slot locked.
pub fn lay(image: &mut [u8], newest: usize, tran: Tran, rec: Rec, pending: Entry)
    requires whole { Whole image.old × (rec.0 < record_count) × (tran.0 < tran_bound) }
    requires newest { IsNewest image.old newest }
    ensures { image.new ≡ laid (lay_block cabinet (control_in image.old) tran.0 rec.0
        (state_of pending)) image.old }
{
    let sites = control::sites::mask_at(image, newest, block_of(rec));
    for site in mask::each(sites) {
        lay_on(image, site, tran, rec, pending);
    }
}
