// The sites of the blocks of a placement, as masks in a lent list.
ghost use Rattle.std.specs.Prelude.{◌≡◌, ◌%◌, ◌+◌, ◌<◌, length};
ghost use Rattle.image.specs.Layout.{block_count};
ghost use Rattle.mask.specs.Masks.{byte, members};
ghost use Rattle.mask.specs.Placements.{Enough, meant, placed};
ghost use Rattle.mask.specs.SiteMasks.{SitesFrom, SitesIn};

use crate::{Placement, first_member, first_or};

// The sites of block i, as a mask, where the members from number i on are left.
fn sites_from(placement: Placement, left: u8) -> u8
    requires enough { Enough (meant placement).mask }
    requires nonzero { 0 < length (members (byte left)) }
    ensures { SitesFrom (placed (meant placement)) left result }
{
    let first = first_member(left);
    let across = placement.across(first);
    if across != 0 {
        return crate::pair(first, first_member(across));
    }
    let rest = crate::without_first(left);
    crate::pair(first, first_or(rest, placement.mask))
}

// The masks of the sites of the first blocks, until the sites come again: of how many blocks. The members are worked out
// once.
pub fn fill(masks: &mut [u8], placement: Placement) -> usize
    requires masks_len { length masks.old ≡ block_count }
    requires enough { Enough (meant placement).mask }
    ensures { SitesIn masks.new result (placed (meant placement)) }
{
    let count = crate::members(placement.mask) as usize;
    let mut left = placement.mask;
    for i in 0..count {
        masks[i] = sites_from(placement, left);
        left = crate::without_first(left);
    }
    count
}

// The place after this one in a list of so many masks, going round.
pub fn next_place(count: usize, place: usize) -> usize
    requires { place < count }
    ensures { result ≡ (place + 1) % count }
{
    let next = place + 1;
    if next == count { 0 } else { next }
}
