// The moves that let settle succeed, for the service tablet (request A.3), in a list that the caller lends.
ghost use Rattle.std.specs.Prelude.{◌++◌, ◌≡◌, ◌≤◌, drop, length};
ghost use Rattle.cabinet_rules.specs.Images.{Image};
ghost use Rattle.move_list.specs.Plans.{Plans, first_moves, moves_in};
ghost use Rattle.move_list.specs.Promise.{ListDone, blank_list};

use move_list::{AllMoves, Move, Plan};
use refusals::Refusal;

// The first n moves are put into the list.
fn fill(plan: Plan, list: &mut [Move], n: usize)
    requires { n ≤ length list.old }
    ensures { list.new ≡ first_moves (moves_in plan.origins) n ++ drop n list.old }
{
    for i in 0..n {
        list[i] = plan.nth(i);
    }
}

// What was found is put into the list: all its moves, where there is room for them; else the list stays as lent.
fn put(found: Result<Option<Plan>, Refusal>, list: &mut [Move]) -> Result<Option<u16>, Refusal>
    ensures { (g : Image) → Plans g found → ListDone g list.old result list.new }
{
    let known = found?;
    match known {
        Some(plan) => {
            let n = plan.answer(list.len())?;
            fill(plan, list, n);
            Ok(Some(plan.count))
        }
        None => Ok(None),
    }
}

// The fewest moves after which settle succeeds, in the order of blocks and then of cards, in the first entries of the
// list; those beyond their number stay as lent. The list stays as lent where a move is locked, or on a refusal.
pub fn list(image: &[u8], list: &mut [Move]) -> Result<Option<u16>, Refusal>
    ensures { ListDone image.now list.old result list.new }
{
    let found = move_list::find_moves(image);
    put(found, list)
}

// What was found, in a list that has room for every list of moves. It is not inlined, so that this list is on the stack
// only when what looks through the image is off it: the header says how much stack a call needs.
#[inline(never)]
fn all_of(found: Result<Option<Plan>, Refusal>) -> AllMoves
    ensures { (g : Image) → Plans g found → ListDone g blank_list result.listed result.moves }
{
    let mut moves = move_list::blank();
    let listed = put(found, &mut moves);
    AllMoves::new(listed, moves)
}

// The same as `list` with plain parameters, in a list that has room for every list of moves: its callers hold no reference
// to an entry.
pub fn all(image: &[u8]) -> AllMoves
    ensures { ListDone image.now blank_list result.listed result.moves }
{
    let found = move_list::find_moves(image);
    all_of(found)
}
