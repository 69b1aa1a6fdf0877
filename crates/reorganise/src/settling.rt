// The condition of a settle, and what it leaves behind the tables.
ghost use Rattle.std.specs.Prelude.{◌≡◌, length};
ghost use Rattle.image.specs.Layout.{block_count};
ghost use Rattle.mask.specs.SiteMasks.{SitesIn};
ghost use Rattle.refusals.specs.Refusals.{row_of};
ghost use Rattle.method.specs.ControlPart.{only_newest};
ghost use Rattle.method.specs.Rules.{settle, settled};
ghost use Rattle.control.specs.ControlBytes.{tail_byte};
ghost use Rattle.control.specs.Meaning.{put_tail};
ghost use Rattle.cabinet_rules.specs.Cabinet.{cabinet};
ghost use Rattle.cabinet_rules.specs.Images.{control_in};
ghost use Rattle.promise.specs.Given.{Given, rows_on, view_of};

use crate::looking;
use control::Control;
use control::codec::RAIL_WEIGHT;
use image::{BLOCK_COUNT, Block};
use mask::site_masks::next_place;
use refusals::Refusal;

// Whether every block lies where the newest placement has it: one pass over the working cards' tables, two blocks at a
// time, beside the masks of the newest sites.
fn settled_by(image: &[u8], k: Control, sites: &[u8], round: usize) -> bool
    requires given { Given k image.now }
    requires sites_len { (length sites.now ≡ block_count) × SitesIn sites.now round (control_in image.now).newest }
    ensures { result ≡ settled cabinet (control_in image.now) (view_of image.now) }
{
    let mut place: usize = 0;
    for two in 0..BLOCK_COUNT / 2 {
        let b = 2 * two;
        let held = trail::held_by_two(image, k.working, Block(b as u8));
        if !looking::block_settled(held.first, sites[place]) {
            return false;
        }
        let next = next_place(round, place);
        if !looking::block_settled(held.second, sites[next]) {
            return false;
        }
        place = next_place(round, next);
    }
    true
}

// The same, the masks worked out first.
fn settled(image: &[u8], k: Control) -> bool
    requires { Given k image.now }
    ensures { result ≡ settled cabinet (control_in image.now) (view_of image.now) }
{
    let mut sites = [0u8; BLOCK_COUNT];
    let round = looking::newest_masks(&mut sites, image, k);
    settled_by(image, k, &sites, round)
}

// Rows 4 and 13.
pub fn check(image: &[u8], k: Control) -> Result<(), Refusal>
    requires { Given k image.now }
    ensures { row_of result ≡ rows_on settle image.now }
{
    if k.stopped {
        return Err(Refusal::Stopped);
    }
    if !settled(image, k) {
        return Err(Refusal::Unsettled);
    }
    Ok(())
}

// The bytes behind the tables become those of the newest placement alone. Where no placement is by table they are zero
// before and after.
pub fn retire_pairs(image: &mut [u8], k: Control)
    requires { Given k image.old }
    ensures { image.new ≡ put_tail image.old (tail_byte (only_newest (control_in image.old))) }
{
    if k.marks % RAIL_WEIGHT == 0 {
        return;
    }
    control::pairs::retire(image, k.count);
}
