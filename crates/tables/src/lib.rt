// Work on the tables of an image that commit, rollback and fail share: transactions end in all held blocks.
#![tactic(auto)]

ghost use Rattle.std.specs.Prelude.{◌≡◌, Bool, false, ℕ, ◌-◌, ◌<◌, eqb, get_or, length};
ghost use Rattle.std.proofs.Math.Option.{Option, none};
ghost use Rattle.lists.specs.Segments.{within};
ghost use Rattle.image.specs.Layout.{card_count, table_size, table_start, tran_bound};
ghost use Rattle.image.specs.Parts.{Whole};
ghost use Rattle.mask.specs.Masks.{byte};
ghost use Rattle.slot.specs.Blocks.{in_set};
ghost use Rattle.method.specs.ControlPart.{is_open, begun_at};
ghost use Rattle.control.specs.ControlBytes.{home_of};
ghost use Rattle.control.specs.Meaning.{meaning};
ghost use Rattle.promise.specs.Laid.{laid};
ghost use Rattle.tables.specs.Tables.{TestsHomes, end_writes, ended_table, set_of};

use control::Control;
use control::codec::OPEN;
use image::{BLOCK_COUNT, BLOCK_SIZE, Block, Card, TABLE_SIZE, TRAN_COUNT, Tran};
use mask::Placement;

// The transactions of the set end in all held blocks of a table.
fn end_table(table: &mut [u8], take: bool, set: u16)
    requires { length table.old ≡ table_size }
    ensures { table.new ≡ ended_table take (in_set set) table.old }
{
    for b in 0..BLOCK_COUNT {
        let start = b * BLOCK_SIZE;
        let end = start + BLOCK_SIZE;
        slot::block::end_held(&mut table[start..end], take, set);
    }
}

// The same in the card's table, a part from the middle of the image.
fn end_card(image: &mut [u8], card: Card, take: bool, set: u16)
    requires { Whole image.old × (card.0 < card_count) }
    ensures { image.new
        ≡ within image.old (table_start card.0) table_size (ended_table take (in_set set)) }
{
    let start = image::block_address(card, Block(0));
    let end = start + TABLE_SIZE;
    end_table(&mut image[start..end], take, set);
}

// The transactions of the set end in all held blocks of the mask's cards: a slot that one of them locks takes, or
// drops, its pending state. The tables of other cards are not touched, and with an empty set none is.
pub fn end_held(image: &mut [u8], working: u8, take: bool, set: u16)
    requires { Whole image.old }
    ensures { image.new
        ≡ laid (end_writes (byte working) take (in_set set) image.old) image.old }
{
    if set == 0 {
        return;
    }
    for c in 0..Placement::MOST_CARDS {
        if mask::has(working, Card(c)) {
            end_card(image, Card(c), take, set);
        }
    }
}

// The set of one transaction.
pub fn set_of(tran: Tran) -> u16
    requires { tran.0 < tran_bound }
    ensures { result ≡ set_of (λ x. eqb x tran.0) }
{
    1u16 << tran.0
}

// The set of the transactions whose byte passes the test, which is one of the home that the byte says.
fn set_by<F: Fn(u8) -> bool>(homes: [u8; TRAN_COUNT], passes: F) -> u16
    ghost picks: { Option ℕ → Bool }
    requires closed { picks none ≡ false }
    requires tests { TestsHomes picks (F.pre passes) (F.post passes) }
    ensures { result ≡ set_of (λ t. picks (home_of t (get_or homes (t - 1) 0))) }
{
    let mut set: u16 = 0;
    for i in 0..TRAN_COUNT {
        if passes(homes[i]) {
            set += set_of(Tran((i + 1) as u8));
        }
    }
    set
}

// The set of all open transactions.
pub fn all_open(k: Control) -> u16
    ensures { result ≡ set_of (is_open (meaning k)) }
{
    set_by(k.homes, |home| home >= OPEN)
}

// The set of the transactions begun at the card.
pub fn begun_at(k: Control, card: Card) -> u16
    ensures { result ≡ set_of (begun_at (meaning k) card.0) }
{
    set_by(k.homes, |home| control::codec::is_home(home, card))
}
