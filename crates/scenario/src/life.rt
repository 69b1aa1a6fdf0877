// A store from its start to its stop: four cards, one fails, comes back and takes its share, then two fail.
use crate::report::answer;
use image::{Block, Card, Rec, Tran};

// Two records in two blocks.
pub fn fill(rt: &impl Print, image: &mut [u8]) {
    answer(rt, store::start(image, 0xF0));
    answer(rt, store::begin(image, Tran(1), Card(0)));
    answer(rt, store::store(image, Tran(1), Rec(9), 4660));
    answer(rt, store::store(image, Tran(1), Rec(16), 300));
    answer(rt, store::commit(image, Tran(1)));
}

// One is deleted, and that is rolled back.
pub fn change_mind(rt: &impl Print, image: &mut [u8]) {
    answer(rt, store::begin(image, Tran(2), Card(3)));
    answer(rt, store::delete(image, Tran(2), Rec(9)));
    answer(rt, store::get(image, Tran(2), Rec(9)));
    answer(rt, store::rollback(image, Tran(2)));
    answer(rt, store::state(image));
}

// Card 1 fails, and the store is unprotected.
pub fn fail_one(rt: &impl Print, image: &mut [u8]) {
    answer(rt, store::fail(image, Card(1)));
    answer(rt, store::state(image));
    answer(rt, store::settle(image));
}

// The blocks go to their new sites, and the store is protected again.
pub fn spread(rt: &impl Print, image: &mut [u8]) {
    answer(rt, store::move_block(image, Card(2), Block(1)));
    answer(rt, store::move_block(image, Card(2), Block(2)));
    answer(rt, store::settle(image));
    answer(rt, store::state(image));
    answer(rt, store::load(image, Card(2)));
    answer(rt, store::load(image, Card(1)));
}

// Card 1 comes back empty; an idle card is fitted and withdrawn.
pub fn fit_again(rt: &impl Print, image: &mut [u8]) {
    answer(rt, store::fit(image, Card(1)));
    answer(rt, store::fit(image, Card(5)));
    answer(rt, store::withdraw(image, Card(5)));
}

// Card 1 joins the placement and gets its blocks; the store is protected throughout.
pub fn rejoin(rt: &impl Print, image: &mut [u8]) {
    answer(rt, store::place(image, 0xF0));
    answer(rt, store::state(image));
    answer(rt, store::move_block(image, Card(3), Block(1)));
    answer(rt, store::move_block(image, Card(0), Block(2)));
    answer(rt, store::settle(image));
    answer(rt, store::state(image));
}

// Two cards fail with no settle between: the store stops, and refuses.
pub fn stop(rt: &impl Print, image: &mut [u8]) {
    answer(rt, store::begin(image, Tran(3), Card(1)));
    answer(rt, store::get(image, Tran(3), Rec(9)));
    answer(rt, store::get(image, Tran(3), Rec(16)));
    answer(rt, store::fail(image, Card(0)));
    answer(rt, store::fail(image, Card(2)));
    answer(rt, store::get(image, Tran(3), Rec(9)));
    answer(rt, store::state(image));
}
