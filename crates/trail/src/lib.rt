// The trail of a block: the sites of all active placements, oldest first, and the holders on it. Beside it the cards
// that hold a block, on its trail or not.
#![tactic(auto)]

ghost use Rattle.std.specs.Prelude.{◌≡◌, ◌∷◌, [], ◌+◌, ◌<◌};
ghost use Rattle.image.specs.Layout.{block_count, card_count, most_active};
ghost use Rattle.image.specs.Parts.{Whole};
ghost use Rattle.mask.specs.Masks.{AreMembers, byte};
ghost use Rattle.mask.specs.Placements.{Usable, sites_of};
ghost use Rattle.slot.specs.Blocks.{is_held};
ghost use Rattle.cabinet_rules.specs.Images.{block_in};
ghost use Rattle.promise.specs.Given.{Given};
ghost use Rattle.trail.specs.Trail.{Adds, Lists, WithCard, holders_in, holds_at, shown_at};

use control::Control;
use image::{Block, Card};
use mask::Placement;
use slot::HELD;

// The holders of a block: the first of them on its trail, the oldest placement first, and all of them as a mask.
#[derive(Clone, Copy)]
pub struct Holders {
    pub first: Option<Card>,
    pub cards: u8,
}

// Whether the card's table holds the block: one byte is read.
fn is_held(image: &[u8], card: Card, block: Block) -> bool
    requires { Whole image.now × (card.0 < card_count) × (block.0 < block_count) }
    ensures { result ≡ is_held (block_in image.now card.0 block.0) }
{
    let at = image::block_address(card, block);
    image[at] >= HELD
}

// Whether the card works and holds the block. The table of a card that does not work is not read.
#[tactic(auto, unfolding(crate::specs::Trail::holds_at))]
pub fn holds(image: &[u8], working: u8, card: Card, block: Block) -> bool
    requires { Whole image.now × (card.0 < card_count) × (block.0 < block_count) }
    ensures { result ≡ holds_at image.now (byte working) block.0 card.0 }
{
    mask::has(working, card) && is_held(image, card, block)
}

// The mask with the card, where it is on.
fn with_if(mask: u8, on: bool, card: Card) -> u8
    requires { card.0 < card_count }
    ensures { WithCard mask result card.0 on }
{
    if on {
        return mask::with_card(mask, card);
    }
    mask
}

// The working cards that hold the block.
pub fn held_by(image: &[u8], working: u8, block: Block) -> u8
    requires { Whole image.now × (block.0 < block_count) }
    ensures { AreMembers result (holds_at image.now (byte working) block.0) }
{
    let mut held: u8 = 0;
    for c in 0..Placement::MOST_CARDS {
        let on = holds(image, working, Card(c), block);
        held = with_if(held, on, Card(c));
    }
    held
}

// The working cards that hold a block, and those that hold the block after it.
#[derive(Clone, Copy)]
pub struct HeldTwo {
    pub first: u8,
    pub second: u8,
}

// The two masks with the card, where it works and holds the block. Whether it works is asked once for both.
fn both_with_card(image: &[u8], working: u8, held: HeldTwo, card: Card, block: Block) -> HeldTwo
    requires { Whole image.now × (card.0 < card_count) × (block.0 + 1 < block_count) }
    ensures { WithCard held.first result.first card.0 (holds_at image.now (byte working) block.0 card.0)
        × WithCard held.second result.second card.0
        (holds_at image.now (byte working) (block.0 + 1) card.0) }
{
    let works = mask::has(working, card);
    if works {
        let first = is_held(image, card, block);
        let second = is_held(image, card, Block(block.0 + 1));
        return HeldTwo {
            first: with_if(held.first, first, card),
            second: with_if(held.second, second, card),
        };
    }
    held
}

// Those of a block and of the block after it.
pub fn held_by_two(image: &[u8], working: u8, block: Block) -> HeldTwo
    requires { Whole image.now × (block.0 + 1 < block_count) }
    ensures { AreMembers result.first (holds_at image.now (byte working) block.0)
        × AreMembers result.second (holds_at image.now (byte working) (block.0 + 1)) }
{
    let mut held = HeldTwo {
        first: 0,
        second: 0,
    };
    for c in 0..Placement::MOST_CARDS {
        held = both_with_card(image, working, held, Card(c), block);
    }
    held
}

// The card is added where it holds the block.
fn push(image: &[u8], working: u8, block: Block, found: Holders, card: Card) -> Holders
    requires { Whole image.now × (card.0 < card_count) × (block.0 < block_count) }
    ensures { Adds found (holds_at image.now (byte working) block.0) (card.0 ∷ []) result }
{
    if holds(image, working, card, block) {
        return Holders {
            first: Some(found.first.unwrap_or(card)),
            cards: mask::with_card(found.cards, card),
        };
    }
    found
}

// The sites of placement i are added where they hold the block.
fn push_sites(image: &[u8], working: u8, block: Block, found: Holders, i: usize) -> Holders
    requires whole { Whole image.now × (i < most_active) × (block.0 < block_count) }
    requires usable { Usable (shown_at image.now i) }
    ensures { Adds found (holds_at image.now (byte working) block.0)
        (sites_of (shown_at image.now i) block.0) result }
{
    let sites = control::sites::at(image, i, block);
    let mut all = found;
    for card in sites {
        all = push(image, working, block, all, card);
    }
    all
}

// The holders of a block. The placements are read off the image: of the struct only the count and the working cards are
// used.
pub fn find(image: &[u8], k: Control, block: Block) -> Holders
    requires given { Given k image.now }
    requires block_lt_block_count { block.0 < block_count }
    ensures { Lists result (holders_in image.now block.0) }
{
    let mut found = Holders {
        first: None,
        cards: 0,
    };
    for i in 0..k.count as usize {
        found = push_sites(image, k.working, block, found, i);
    }
    found
}
