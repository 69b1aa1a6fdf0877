// The sites of a block by placement i of those that an image shows: by its pairs behind the tables, if it is by table,
// else by its mask. Nothing of a table is read but the bytes of the pairs that are asked for.
ghost use Rattle.std.specs.Prelude.{◌≡◌, ◌+◌, ◌<◌, ◌≤◌, get_or, length};
ghost use Rattle.image.specs.Layout.{block_count, control_size, most_active};
ghost use Rattle.image.specs.Parts.{Whole};
ghost use Rattle.mask.specs.Masks.{AreMembers, byte};
ghost use Rattle.mask.specs.Pairs.{pair_at, pair_bound, pairs_byte};
ghost use Rattle.mask.specs.Placements.{AreSites, Usable, is_site, meant};
ghost use Rattle.mask.specs.SiteMasks.{SitesIn};
ghost use Rattle.control.specs.ControlBytes.{
  mark_in,
  marks_at,
  masks_at,
  pairs_in,
  placement_at,
  table_mark_in,
  tail_at,
};

use crate::codec::{MARKS_AT, MASKS_AT};
use crate::{FIRST_MARK, FIRST_TABLE_MARK, pairs};
use image::{Block, Card};
use mask::Placement;

// Whether it is by table.
fn by_table(image: &[u8], i: usize) -> bool
    requires { (control_size ≤ length image.now) × (i < most_active) }
    ensures { result ≡ table_mark_in (get_or image.now marks_at 0) i }
{
    (image[MARKS_AT] & (FIRST_TABLE_MARK >> i)) != 0
}

// What its mask and its mark for rails give, whether it is by table or not.
fn masked(image: &[u8], i: usize) -> Placement
    requires { (control_size ≤ length image.now) × (i < most_active) }
    ensures { meant result ≡ record {
      mask = byte (get_or image.now (masks_at + i) 0);
      by_rails = mark_in (get_or image.now marks_at 0) i;
    } }
{
    Placement {
        mask: image[MASKS_AT + i],
        rails: (image[MARKS_AT] & (FIRST_MARK >> i)) != 0,
    }
}

// The pair of a block that the bytes behind the tables have for it.
fn pair(image: &[u8], i: usize, block: Block) -> u8
    requires { Whole image.now × (i < most_active) × (block.0 < block_count) }
    ensures { (result ≡ pair_at (pairs_byte (pairs_in (tail_at image.now) i)) block.0) × (result < pair_bound) }
{
    let start = pairs::start(i);
    let end = start + image::PAIRS_SIZE;
    mask::pairs::pair_at(&image[start..end], block)
}

// The sites of a block, in the order of the rules.
pub fn at(image: &[u8], i: usize, block: Block) -> [Card; image::COPY_COUNT]
    requires whole { Whole image.now × (i < most_active) × (block.0 < block_count) }
    requires usable { Usable (placement_at (λ n. get_or image.now n 0) (tail_at image.now) i) }
    ensures { AreSites result (placement_at (λ n. get_or image.now n 0) (tail_at image.now) i) block.0 }
{
    if by_table(image, i) {
        return mask::pairs::sites(pair(image, i, block));
    }
    masked(image, i).sites(block)
}

// The same as a mask.
pub fn mask_at(image: &[u8], i: usize, block: Block) -> u8
    requires whole { Whole image.now × (i < most_active) × (block.0 < block_count) }
    requires usable { Usable (placement_at (λ n. get_or image.now n 0) (tail_at image.now) i) }
    ensures { AreMembers result (is_site (placement_at (λ n. get_or image.now n 0) (tail_at image.now) i) block.0) }
{
    mask::of_sites(at(image, i, block))
}

// The masks of the sites of the first blocks, until the sites come again: of how many blocks. By table it is all blocks.
pub fn fill(masks: &mut [u8], image: &[u8], i: usize) -> usize
    requires masks_len { (length masks.old ≡ block_count) × Whole image.now × (i < most_active) }
    requires usable { Usable (placement_at (λ n. get_or image.now n 0) (tail_at image.now) i) }
    ensures { SitesIn masks.new result (placement_at (λ n. get_or image.now n 0) (tail_at image.now) i) }
{
    if by_table(image, i) {
        let start = pairs::start(i);
        let end = start + image::PAIRS_SIZE;
        mask::pairs::fill(masks, &image[start..end]);
        return image::BLOCK_COUNT;
    }
    mask::site_masks::fill(masks, masked(image, i))
}
