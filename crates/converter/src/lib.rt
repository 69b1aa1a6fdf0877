// The converters of images from before requests A.6 and A.7, each to the length of the request that follows.
#![tactic(auto)]

ghost use Rattle.std.specs.Prelude.{◌≡◌, true, ◌≤◌, ◌<◌, ℕ, get_or, length};
ghost use Rattle.lists.specs.Tabulate.{tabulate};
ghost use Rattle.lists.specs.Tests.{all_below};
ghost use Rattle.image.specs.Layout.{block_count, card_count, control_size, pairs_size};
ghost use Rattle.image.specs.Parts.{Whole};
ghost use Rattle.mask.specs.Masks.{byte};
ghost use Rattle.mask.specs.Pairs.{is_pair_of, pair_at, pair_bound};
ghost use Rattle.cabinet_rules.specs.Converting.{older_size, pairs_image_size, stamped_image};
ghost use Rattle.cabinet_rules.specs.Images.{form_by};
ghost use Rattle.cabinet_rules.specs.Retired.{below_wire, by_tables};
ghost use Rattle.converter.specs.Promise.{PairsDone, StampsDone};
ghost use Rattle.converter.specs.Steps.{TablesCarried, carry_table, older_front_ok, shown_front};

use control::codec::{
    FIELD, FIELD_BOUND, MARKS_AT, MASKS_AT, RAIL_WEIGHT, SERIAL_AT, SERIAL_END, WORKING_AT,
};
use control::serials;
use control::stamps::{self, Stamp};
use image::{Block, Card};
use refusals::Refusal;

// The length of an image from before A.6, which ends with the tables, and from before A.7: no table has a stamp.
const OLDER_SIZE: usize = image::CONTROL_SIZE + image::CARD_COUNT * image::BLOCKS_SIZE;

const CARD_COUNT: u8 = image::CARD_COUNT as u8;

const PAIRS_IMAGE_SIZE: usize = OLDER_SIZE + image::TAIL_SIZE;

// The serial that a control part from before A.7 gets: no fewer than placements can be active.
const SERIAL: u32 = image::MOST_ACTIVE as u32;

// The bytes before the tables of an image from before A.7, with this serial.
fn numbered(older: &[u8]) -> [u8; image::CONTROL_SIZE]
    requires { control_size ≤ length older.now }
    ensures { result ≡ tabulate control_size (shown_front (λ n. get_or older.now n 0)) }
{
    let mut front = [0u8; image::CONTROL_SIZE];
    image::write_at(&mut front, 0, &older[0..image::CONTROL_SIZE]);
    let serial = serials::bytes(SERIAL);
    image::write_at(&mut front, SERIAL_AT, &serial);
    front
}

// What is asked of these bytes, whatever bytes t are behind the tables: they have no serial, and with this one they have
// the form in force.
fn front_ok(older: &[u8]) -> bool
    requires { control_size ≤ length older.now }
    ensures { (t : ℕ → ℕ) → result ≡ older_front_ok (λ n. get_or older.now n 0) t }
{
    image::all_zero(&older[SERIAL_AT..SERIAL_END]) && control_form::front_ok(&numbered(older))
}

// The control form of an image from before A.6: this, and no mark for a table.
fn form_21024(older: &[u8]) -> bool
    requires { length older.now ≡ older_size }
    ensures { result ≡ form_by below_wire older.now }
{
    front_ok(older) && older[MARKS_AT] % RAIL_WEIGHT == 0
}

// Whether the pair is two different members of the mask.
#[tactic(auto, unfolding(mask::specs::Pairs::is_pair_of))]
fn pair_ok(pair: u8, mask: u8) -> bool
    requires { pair < pair_bound }
    ensures { result ≡ is_pair_of (byte mask) pair }
{
    let first = pair / CARD_COUNT;
    let second = pair % CARD_COUNT;
    mask::has(mask, Card(first)) && mask::has(mask, Card(second)) && first != second
}

// Whether those of all blocks are, a block at a time: the check that takes them all at once is the calls' own, and stays
// within their reader as long as nothing else asks for it.
fn pairs_ok(pairs: &[u8], mask: u8) -> bool
    requires { length pairs.now ≡ pairs_size }
    ensures { result ≡ all_below block_count (λ b. is_pair_of (byte mask) (pair_at (λ j. get_or pairs.now j 0) b)) }
{
    for b in 0..image::BLOCK_COUNT as u8 {
        if !pair_ok(mask::pairs::pair_at(pairs, Block(b)), mask) {
            return false;
        }
    }
    true
}

// That of an image from before A.7: this, and what is asked behind the tables.
fn form_21216(older: &[u8]) -> bool
    requires { length older.now ≡ pairs_image_size }
    ensures { result ≡ form_by by_tables older.now }
{
    front_ok(older)
        && control_form::behind_ok(older, &older[OLDER_SIZE..PAIRS_IMAGE_SIZE], pairs_ok)
}

// Fills the lent buffer with the image from before A.6 at the length of A.6, and answers how many bytes were written;
// refused, it leaves the buffer as lent. A stopped image is converted too.
pub fn convert_21024(older: &[u8], image: &mut [u8]) -> Result<u16, Refusal>
    ensures { PairsDone older.now image.old result image.new }
{
    if older.len() != OLDER_SIZE {
        return Err(Refusal::Length);
    }
    if image.len() != PAIRS_IMAGE_SIZE {
        return Err(Refusal::Length);
    }
    if !form_21024(older) {
        return Err(Refusal::ControlForm);
    }
    image::write_at(image, 0, older);
    image::clear(&mut image[OLDER_SIZE..PAIRS_IMAGE_SIZE]);
    Ok(PAIRS_IMAGE_SIZE as u16)
}

// Writes the blocks of a card's table where they are now, and no stamp behind them.
fn carry_table(older: &[u8], image: &mut [u8], card: Card)
    requires { (length older.now ≡ pairs_image_size) × Whole image.old × (card.0 < card_count) }
    ensures { image.new ≡ carry_table older.now image.old card.0 }
{
    let to = image::CONTROL_SIZE + card.0 as usize * image::TABLE_SIZE;
    let from = image::CONTROL_SIZE + card.0 as usize * image::BLOCKS_SIZE;
    let end = from + image::BLOCKS_SIZE;
    image::write_at(image, to, &older[from..end]);
    stamps::put(image, card, Stamp { serial: 0, mask: 0 });
}

// Those of all cards.
fn carry_tables(older: &[u8], image: &mut [u8])
    requires { (length older.now ≡ pairs_image_size) × Whole image.old }
    ensures { TablesCarried older.now card_count image.new }
{
    for i in 0..image::CARD_COUNT as u8 {
        carry_table(older, image, Card(i));
    }
}

// Writes the whole image from before A.7: its tables, its pairs, its control part with a serial, and then the stamps of
// the cards that work, of the newest placement.
fn carry(older: &[u8], image: &mut [u8])
    requires { (length older.now ≡ pairs_image_size) × (form_by by_tables older.now ≡ true) × Whole image.old }
    ensures { image.new ≡ stamped_image older.now }
{
    carry_tables(older, image);
    image::write_at(
        image,
        image::TAIL_START,
        &older[OLDER_SIZE..PAIRS_IMAGE_SIZE],
    );
    let front = numbered(older);
    image::write_at(image, 0, &front);
    let count = (front[0] / FIELD % FIELD_BOUND) as usize;
    let newest = Stamp {
        serial: SERIAL,
        mask: front[MASKS_AT + count - 1],
    };
    stamps::put_all(image, front[WORKING_AT], newest);
}

// Fills the lent buffer with the image from before A.7 at the length of A.7, as the converter above does. The form that it
// asks and what it writes differ, so that one function over both would take two closures and say no less.
pub fn convert_21216(older: &[u8], image: &mut [u8]) -> Result<u16, Refusal>
    ensures { StampsDone older.now image.old result image.new }
{
    if older.len() != PAIRS_IMAGE_SIZE {
        return Err(Refusal::Length);
    }
    if image.len() != image::IMAGE_SIZE {
        return Err(Refusal::Length);
    }
    if !form_21216(older) {
        return Err(Refusal::ControlForm);
    }
    carry(older, image);
    Ok(image::IMAGE_SIZE as u16)
}
