// The stamps at the ends of card tables: the serial and the mask of a placement.
ghost use Rattle.std.specs.Prelude.{◌≡◌, ◌+◌, ◌<◌, get_or};
ghost use Rattle.image.specs.Layout.{card_count, end_start};
ghost use Rattle.image.specs.Parts.{Whole};
ghost use Rattle.mask.specs.Masks.{byte};
ghost use Rattle.control.specs.Stamps.{put_stamp, put_stamps, same_stamp, stamp_by, stamp_in};

use crate::serials;
use image::Card;

// The serial and the mask of a placement.
#[derive(Clone, Copy, PartialEq, Eq)]
pub struct Stamp {
    pub serial: u32,
    pub mask: u8,
}

// Writes the stamp of a card.
pub fn put(image: &mut [u8], card: Card, stamp: Stamp)
    requires { Whole image.old × (card.0 < card_count) }
    ensures { image.new ≡ put_stamp image.old card.0 (stamp_by stamp) }
{
    let first = serials::bytes(stamp.serial);
    let bytes = [first[0], first[1], first[2], stamp.mask];
    image::write_at(image, image::end_start(card), &bytes);
}

// Writes the stamp of every working card.
pub fn put_all(image: &mut [u8], working: u8, stamp: Stamp)
    requires { Whole image.old }
    ensures { image.new ≡ put_stamps image.old (byte working) (stamp_by stamp) card_count }
{
    for i in 0..image::CARD_COUNT as u8 {
        if mask::has(working, Card(i)) {
            put(image, Card(i), stamp);
        }
    }
}

// Whether the card has this stamp.
pub fn is_current(image: &[u8], card: Card, stamp: Stamp) -> bool
    requires { Whole image.now × (card.0 < card_count) }
    ensures { result ≡ same_stamp (stamp_in (λ j. get_or image.now (end_start card.0 + j) 0)) (stamp_by stamp) }
{
    let start = image::end_start(card);
    let found = Stamp {
        serial: serials::read(image, start),
        mask: image[start + serials::SIZE],
    };
    found == stamp
}
