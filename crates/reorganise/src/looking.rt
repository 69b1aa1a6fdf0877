// The newest sites of blocks as masks, and whether a block lies at them.
ghost use Rattle.std.specs.Prelude.{◌≡◌, ◌<◌, length};
ghost use Rattle.image.specs.Layout.{block_count, card_count};
ghost use Rattle.mask.specs.Masks.{AreMembers, byte, has_card, members};
ghost use Rattle.mask.specs.Placements.{is_site};
ghost use Rattle.mask.specs.SiteMasks.{SitesIn};
ghost use Rattle.method.specs.Rules.{settled_by};
ghost use Rattle.cabinet_rules.specs.Images.{control_in};
ghost use Rattle.promise.specs.Given.{Given};

use control::Control;
use image::Block;

// The sites of a block in the newest placement.
pub fn newest_sites(image: &[u8], k: Control, block: Block) -> u8
    requires given { Given k image.now }
    requires block_lt_block_count { block.0 < block_count }
    ensures { AreMembers result (is_site (control_in image.now).newest block.0) }
{
    let newest = (k.count - 1) as usize;
    control::sites::mask_at(image, newest, block)
}

// Those of the blocks in a lent list, until they come again: of how many blocks.
pub fn newest_masks(masks: &mut [u8], image: &[u8], k: Control) -> usize
    requires masks_len { length masks.old ≡ block_count }
    requires given { Given k image.now }
    ensures { SitesIn masks.new result (control_in image.now).newest }
{
    let newest = (k.count - 1) as usize;
    control::sites::fill(masks, image, newest)
}

// Whether a block held on some card is held by all its sites and by no other card: of the masks of the cards that hold
// it and of its sites.
pub fn block_settled(held: u8, sites: u8) -> bool
    ensures { result ≡ settled_by card_count (members (byte sites)) (has_card (byte held)) }
{
    if held == 0 {
        return true;
    }
    held == sites
}
