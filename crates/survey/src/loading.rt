// The count of a load.
ghost use Rattle.std.specs.Prelude.{◌≡◌, ◌*◌, ◌+◌, ◌<◌, ◌≤◌};
ghost use Rattle.image.specs.Layout.{block_count, card_count, slot_count};
ghost use Rattle.image.specs.Parts.{Whole};
ghost use Rattle.method.specs.Rules.{committed_in};
ghost use Rattle.cabinet_rules.specs.Cabinet.{cabinet};
ghost use Rattle.cabinet_rules.specs.Images.{block_in};
ghost use Rattle.survey.specs.Loads.{load_below};

use image::{BLOCK_COUNT, Block, Card};

// The count n, and how many records are committed present in a block: none where it is not held.
fn load_block(image: &[u8], card: Card, block: Block, n: u16) -> u16
    requires whole { Whole image.now × (card.0 < card_count) × (block.0 < block_count) }
    requires n_bound { n ≤ slot_count * block.0 }
    ensures { (result ≡ n + committed_in cabinet (block_in image.now card.0 block.0))
        × (result ≤ n + slot_count) }
{
    let start = image::block_address(card, block);
    let end = start + image::BLOCK_SIZE;
    if slot::block::is_held(&image[start..end]) {
        return n + slot::block::committed_count(&image[start..end]) as u16;
    }
    n
}

// How many are in the card's table.
pub fn load_table(image: &[u8], card: Card) -> u16
    requires { Whole image.now × (card.0 < card_count) }
    ensures { result ≡ load_below image.now card.0 block_count }
{
    let mut n: u16 = 0;
    for b in 0..BLOCK_COUNT {
        n = load_block(image, card, Block(b as u8), n);
    }
    n
}
