// The calls and the answers of the store as values; what a call promises stands in specs/Promise.antt.
#![tactic(auto)]

pub mod rows;

use image::{Block, Card, Rec, Tran};

// The calls with their arguments (RULES, "The calls"). A mask is a byte, a value 16 bits.
#[derive(Clone, Copy)]
pub enum Call {
    Start(u8),
    Begin(Tran, Card),
    Get(Tran, Rec),
    Store(Tran, Rec, u16),
    Delete(Tran, Rec),
    Commit(Tran),
    Rollback(Tran),
    Fit(Card),
    Withdraw(Card),
    Place(u8),
    Fail(Card),
    Move(Card, Block),
    Settle,
    State,
    Load(Card),
}

// The answers of a call that is not refused.
#[derive(Clone, Copy)]
pub enum Answer {
    Accepted,
    Value(u16),
    Absent,
    Placed(u8),
    Unplaced,
    Stopped,
    Copied(u8),
    Retired(u8),
    Protected,
    Unprotected,
    Loaded(u16),
}
