// The moves that let settle succeed, for the service tablet (request A.3): what is found of them in one pass over
// the card tables, the n-th of them, and their number.
#![tactic(auto)]

ghost use Rattle.std.specs.Prelude.{◌≡◌};
ghost use Rattle.move_list.specs.Plans.{Plans, entries_of, found_answer, move_at, moves_in, plan_answer};
ghost use Rattle.move_list.specs.Promise.{blank_list, shown_list_by};

mod finding;
mod origins;

use image::{BLOCK_COUNT, Block, Card};
use mask::Placement;
use refusals::{Numbered, Refusal};

// The most moves that a list can need: every block from every card.
pub const MOST_MOVES: usize = BLOCK_COUNT * Placement::MOST_CARDS as usize;

// An entry of the list: the card that a block moves from, and the block.
#[derive(Clone, Copy)]
pub struct Move(pub Card, pub Block);

// What the call answers, beside a list that has room for every list of moves: the number of moves, none where one of them
// is locked, or a refusal, or any number in its place. A struct, since `ListDone` has both, also where there is none.
#[derive(Clone, Copy)]
pub struct AllMoves<E = Refusal> {
    pub listed: Result<Option<u16>, E>,
    pub moves: [Move; MOST_MOVES],
}

// The moves that are found in an image: their number, and for each block the mask of the cards that it moves from.
#[derive(Clone, Copy)]
pub struct Plan {
    pub count: u16,
    pub origins: [u8; BLOCK_COUNT],
}

// A list that has room for every list of moves.
pub fn blank() -> [Move; MOST_MOVES]
    ensures { result ≡ blank_list }
{
    [Move(Card(0), Block(0)); MOST_MOVES]
}

impl<E> AllMoves<E> {
    pub fn new(listed: Result<Option<u16>, E>, moves: [Move; MOST_MOVES]) -> AllMoves<E>
        ensures { (result.listed ≡ listed) × (result.moves ≡ moves) }
    {
        AllMoves {
            listed: listed,
            moves: moves,
        }
    }
}

// The moves of an image, found in one pass over its tables: none where one of them is locked. It is not inlined, so that
// what it needs of the stack is free again where its caller fills a list.
#[inline(never)]
pub fn find_moves(image: &[u8]) -> Result<Option<Plan>, Refusal>
    ensures { Plans image.now result }
{
    let k = control_form::read(image)?;
    if k.stopped {
        return Err(Refusal::Stopped);
    }
    Ok(finding::find(image, k))
}

impl Plan {
    // Move number n, from 0.
    pub fn nth(self, n: usize) -> Move
        ensures { result ≡ move_at (moves_in self.origins) n }
    {
        let mut left = n;
        for b in 0..BLOCK_COUNT {
            let from = self.origins[b];
            let here = mask::members(from) as usize;
            if left < here {
                return Move(Card(mask::nth_member(from, left as u8)), Block(b as u8));
            }
            left -= here;
        }
        Move(Card(0), Block(0))
    }

    // How many moves are listed in a lent list with this room: all, or it is too short.
    pub fn answer(self, room: usize) -> Result<usize, Refusal>
        ensures { result ≡ plan_answer self room }
    {
        let count = self.count as usize;
        if room < count {
            return Err(Refusal::List);
        }
        Ok(count)
    }
}

// What is answered to a lent list with this room by what was found: how many moves are listed, none where one of them is
// locked, or the refusal, which is one of the table or any number in its place.
#[tactic(auto, unfolding(crate::specs::Plans::found_answer, crate::specs::Plans::plan_answer))]
pub fn answer<E: Numbered>(found: Result<Option<Plan>, E>, room: usize) -> Result<Option<u16>, E>
    ensures { shown_list_by E.numbered result ≡ found_answer E.numbered found room }
{
    match found {
        Ok(Some(plan)) => match plan.answer(room) {
            Ok(_) => Ok(Some(plan.count)),
            Err(refusal) => Err(E::of(refusal)),
        },
        Ok(None) => Ok(None),
        Err(refusal) => Err(refusal),
    }
}

// How many entries of that list are then filled: none but where moves are listed.
pub fn stored<E: Numbered>(found: Result<Option<Plan>, E>, room: usize) -> usize
    ensures { result ≡ entries_of (found_answer E.numbered found room) }
{
    match answer(found, room) {
        Ok(Some(count)) => count as usize,
        Ok(None) => 0,
        Err(_) => 0,
    }
}
