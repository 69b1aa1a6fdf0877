// The cards that a block must still move from.
ghost use Rattle.std.specs.Prelude.{◌≡◌, ◌&&◌, ◌<◌};
ghost use Rattle.lists.specs.Tests.{any_below};
ghost use Rattle.image.specs.Layout.{block_count, card_count};
ghost use Rattle.image.specs.Parts.{Whole};
ghost use Rattle.mask.specs.Masks.{AreMembers, byte, has_card, members};
ghost use Rattle.slot.specs.Blocks.{some_locked};
ghost use Rattle.cabinet_rules.specs.Images.{block_in};
ghost use Rattle.trail.specs.Trail.{holds_at};
ghost use Rattle.method.specs.MoveList.{lowest_by, origin_by};

use image::{Block, Card};
use mask::Placement;
use reorganise::looking;

// The lowest card of a mask alone; none of none.
fn lowest(held: u8) -> u8
    ensures { AreMembers result (lowest_by (has_card (byte held))) }
{
    if held == 0 {
        return 0;
    }
    let first = u8::leading_zeros(held) as u8;
    mask::with_card(0, Card(first))
}

// The cards that a block must move from, of the masks of the cards that hold it and of its sites.
fn origins_of(held: u8, sites: u8) -> u8
    ensures { AreMembers result (origin_by card_count (members (byte sites)) (has_card (byte held))) }
{
    if looking::block_settled(held, sites) {
        return 0;
    }
    let strays = mask::without(held, sites);
    if strays != 0 {
        return strays;
    }
    lowest(held)
}

// The cards that a block of an image must still move from; its sites are given as a mask.
pub fn of_block(image: &[u8], working: u8, sites: u8, block: Block) -> u8
    requires { Whole image.now × (block.0 < block_count) }
    ensures { AreMembers result (origin_by card_count (members (byte sites)) (holds_at image.now (byte working) block.0)) }
{
    origins_of(trail::held_by(image, working, block), sites)
}

// Whether the card is one of these and has a locked slot in its copy of the block.
fn locked_at(image: &[u8], from: u8, card: Card, block: Block) -> bool
    requires { Whole image.now × (card.0 < card_count) × (block.0 < block_count) }
    ensures { result ≡ (has_card (byte from) card.0 && some_locked (block_in image.now card.0 block.0)) }
{
    if mask::has(from, card) {
        let start = image::block_address(card, block);
        let end = start + image::BLOCK_SIZE;
        return slot::block::any_locked(&image[start..end]);
    }
    false
}

// Whether any card is.
pub fn any_locked(image: &[u8], from: u8, block: Block) -> bool
    requires { Whole image.now × (block.0 < block_count) }
    ensures { result ≡ any_below card_count
        (λ c. has_card (byte from) c && some_locked (block_in image.now c block.0)) }
{
    for c in 0..Placement::MOST_CARDS {
        if locked_at(image, from, Card(c), block) {
            return true;
        }
    }
    false
}
