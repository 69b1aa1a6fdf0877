// What a move refuses and what it writes.
ghost use Rattle.std.specs.Prelude.{Ok, ◌≡◌, cond, not, ◌<◌, ◌≤◌};
ghost use Rattle.lists.specs.Tests.{one_if};
ghost use Rattle.image.specs.Layout.{block_count, card_count};
ghost use Rattle.image.specs.Parts.{Whole, put_block};
ghost use Rattle.refusals.specs.Refusals.{row_of};
ghost use Rattle.method.specs.Rules.{move};
ghost use Rattle.promise.specs.Given.{Given, rows_on};
ghost use Rattle.promise.specs.Promise.{Done};
ghost use Rattle.promise.specs.declared.Answer.{Answer};

use crate::looking;
use control::Control;
use image::{BLOCK_COUNT, Block, Card};
use refusals::Refusal;

// Rows 3, 4, 8, 11 and 12.
pub fn check(image: &[u8], k: Control, card: Card, block: Block) -> Result<(), Refusal>
    requires { Given k image.now }
    ensures { row_of result ≡ rows_on (move card.0 block.0) image.now }
{
    if block.0 as usize >= BLOCK_COUNT {
        return Err(Refusal::Range);
    }
    promise::rows::check_card(k, card)?;
    let start = image::block_address(card, block);
    let end = start + image::BLOCK_SIZE;
    if !slot::block::is_held(&image[start..end]) {
        return Err(Refusal::NotHeld);
    }
    if slot::block::any_locked(&image[start..end]) {
        return Err(Refusal::CopyLocked);
    }
    Ok(())
}

// A card that lacks the block gets these bytes, by the block writer, and counts as one; one that has it keeps its own.
fn fill(image: &mut [u8], has: bool, card: Card, block: Block, bytes: [u8; image::BLOCK_SIZE]) -> u8
    requires { Whole image.old × (card.0 < card_count) × (block.0 < block_count) }
    ensures { (result ≡ one_if (not has)) × (result ≤ 1) × (image.new
        ≡ cond has image.old (put_block image.old card.0 block.0 bytes)) }
{
    if has {
        return 0;
    }
    image::put_block(image, card, block, bytes);
    1
}

// An accepted move: each newest site that lacks the block gets the origin's bytes, and the origin is zeroed unless it
// is a site. Answers how many copies were written.
pub fn spread(image: &mut [u8], k: Control, card: Card, block: Block) -> u8
    requires given { Given k image.old }
    requires value { 0 ≡ rows_on (move card.0 block.0) image.old }
    ensures { Done (move card.0 block.0) image.old (Ok (Answer.Copied result)) image.new }
{
    let sites = looking::newest_sites(image, k, block);
    let working = k.working;
    let stays = mask::has(sites, card);
    let bytes = image::get_block(image, card, block);
    let mut copies: u8 = 0;
    for site in mask::each(sites) {
        let has = trail::holds(image, working, site, block);
        copies += fill(image, has, site, block, bytes);
    }
    fill(image, stays, card, block, [0u8; image::BLOCK_SIZE]);
    copies
}
