// What the call finds in an image.
ghost use Rattle.std.specs.Prelude.{◌≡◌, length};
ghost use Rattle.image.specs.Layout.{block_count};
ghost use Rattle.mask.specs.SiteMasks.{SitesIn};
ghost use Rattle.cabinet_rules.specs.Images.{control_in};
ghost use Rattle.promise.specs.Given.{Given};
ghost use Rattle.move_list.specs.Plans.{Finds};

use crate::{Plan, origins};
use control::Control;
use image::{BLOCK_COUNT, Block};
use mask::site_masks::next_place;
use reorganise::looking;

// Block by block, by the masks of the newest sites: the cards that it must move from; none where one of them is locked.
fn find_by(image: &[u8], k: Control, sites: &[u8], round: usize) -> Option<Plan>
    requires given { Given k image.now }
    requires sites_len { (length sites.now ≡ block_count) × SitesIn sites.now round (control_in image.now).newest }
    ensures { Finds image.now result }
{
    let mut origins = [0u8; BLOCK_COUNT];
    let mut count: u16 = 0;
    let mut place: usize = 0;
    for b in 0..BLOCK_COUNT {
        let block = Block(b as u8);
        let from = origins::of_block(image, k.working, sites[place], block);
        if origins::any_locked(image, from, block) {
            return None;
        }
        origins[b] = from;
        count += mask::members(from) as u16;
        place = next_place(round, place);
    }
    Some(Plan {
        count: count,
        origins: origins,
    })
}

// The same, the masks worked out first.
pub fn find(image: &[u8], k: Control) -> Option<Plan>
    requires { Given k image.now }
    ensures { Finds image.now result }
{
    let mut sites = [0u8; BLOCK_COUNT];
    let round = looking::newest_masks(&mut sites, image, k);
    find_by(image, k, &sites, round)
}
