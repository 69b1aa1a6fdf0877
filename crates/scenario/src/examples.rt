// The marked examples M3 to M10 (RULES, "The calls"), run through the store. (M1 and M2 are of the sites alone.)
use crate::report::{answer, title};
use image::{Block, Card, Rec, Tran};

// Record 511 is in block 63, and 512 is no record.
pub fn m3(rt: &impl Print, image: &mut [u8]) {
    title(rt, 3);
    answer(rt, store::start(image, 0xC0));
    answer(rt, store::begin(image, Tran(1), Card(0)));
    answer(rt, store::store(image, Tran(1), Rec(511), 7));
    answer(rt, store::store(image, Tran(1), Rec(512), 7));
    answer(rt, store::commit(image, Tran(1)));
}

// Start needs two cards.
pub fn m4(rt: &impl Print, image: &mut [u8]) {
    title(rt, 4);
    answer(rt, store::start(image, 0x80));
    answer(rt, store::start(image, 0xC0));
}

// Record 0 is stored new.
pub fn m5_stored(rt: &impl Print, image: &mut [u8]) {
    title(rt, 5);
    answer(rt, store::start(image, 0xC0));
    answer(rt, store::begin(image, Tran(1), Card(0)));
    answer(rt, store::store(image, Tran(1), Rec(0), 4660));
}

// And committed.
pub fn m5_committed(rt: &impl Print, image: &mut [u8]) {
    answer(rt, store::commit(image, Tran(1)));
}

// A failure leaves two of three cards; the next stops the store.
pub fn m6(rt: &impl Print, image: &mut [u8]) {
    title(rt, 6);
    answer(rt, store::start(image, 0xE0));
    answer(rt, store::fail(image, Card(1)));
    answer(rt, store::settle(image));
    answer(rt, store::fail(image, Card(2)));
}

// A place with two active placements is accepted, one with three is refused.
pub fn m7(rt: &impl Print, image: &mut [u8]) {
    title(rt, 7);
    answer(rt, store::start(image, 0xE0));
    answer(rt, store::place(image, 0xC0));
    answer(rt, store::place(image, 0x60));
    answer(rt, store::place(image, 0xE0));
}

// A block with a locked record does not move.
pub fn m8(rt: &impl Print, image: &mut [u8]) {
    title(rt, 8);
    answer(rt, store::start(image, 0xE0));
    answer(rt, store::begin(image, Tran(1), Card(0)));
    answer(rt, store::store(image, Tran(1), Rec(0), 5));
    answer(rt, store::move_block(image, Card(0), Block(0)));
}

// Deleting an absent record locks nothing: another transaction stores it.
pub fn m9(rt: &impl Print, image: &mut [u8]) {
    title(rt, 9);
    answer(rt, store::start(image, 0xE0));
    answer(rt, store::begin(image, Tran(1), Card(0)));
    answer(rt, store::begin(image, Tran(2), Card(0)));
    answer(rt, store::delete(image, Tran(1), Rec(3)));
    answer(rt, store::store(image, Tran(2), Rec(3), 5));
}

// Settle after a bare start retires nothing.
pub fn m10(rt: &impl Print, image: &mut [u8]) {
    title(rt, 10);
    answer(rt, store::start(image, 0xE0));
    answer(rt, store::settle(image));
}
