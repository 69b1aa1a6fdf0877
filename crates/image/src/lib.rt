// The image: a lent list of bytes, its layout, the four namings, and the writer of whole blocks. Crate slot writes single
// slots in place.
#![tactic(auto)]

ghost use Rattle.std.specs.Prelude.{◌≡◌, ◌+◌, ◌≤◌, ◌<◌, eqb, get_or, length};
ghost use Rattle.lists.specs.Segments.{segment, splice};
ghost use Rattle.lists.specs.Tests.{all_below};
ghost use Rattle.image.specs.Layout.{
  block_address,
  block_count,
  block_start,
  blocks_size,
  card_count,
  end_start,
  table_size,
  table_start,
};
ghost use Rattle.image.specs.Parts.{Whole, block_at, put_block, put_table, zeros};

// Counts: cards, blocks of a table, slots of a block, copies of a record, transactions.
pub const CARD_COUNT: usize = 8;

pub const BLOCK_COUNT: usize = 64;

pub const SLOT_COUNT: usize = 8;

pub const COPY_COUNT: usize = 2;

pub const TRAN_COUNT: usize = 15;

// Limits: the least members of a placement; the most active placements that a place leaves, and that there ever are; the
// cards on a supply rail.
pub const LEAST_MEMBERS: u32 = COPY_COUNT as u32;

pub const MOST_PLACED: u8 = 3;

pub const MOST_ACTIVE: u8 = MOST_PLACED + COPY_COUNT as u8 - 1;

pub const RAIL_SIZE: u8 = 4;

// Sizes in bytes.
pub const CONTROL_SIZE: usize = 32;

pub const SLOT_SIZE: usize = 5;

pub const BLOCK_SIZE: usize = 1 + SLOT_COUNT * SLOT_SIZE;

// A card's table: its blocks, and behind them its stamp.
pub const BLOCKS_SIZE: usize = BLOCK_COUNT * BLOCK_SIZE;

pub const STAMP_SIZE: usize = 4;

pub const TABLE_SIZE: usize = BLOCKS_SIZE + STAMP_SIZE;

// The pairs of a placement by table, and those of all active placements, behind the tables.
pub const PAIRS_SIZE: usize = 48;

pub const TAIL_SIZE: usize = MOST_ACTIVE as usize * PAIRS_SIZE;

pub const TAIL_START: usize = CONTROL_SIZE + CARD_COUNT * TABLE_SIZE;

pub const IMAGE_SIZE: usize = TAIL_START + TAIL_SIZE;

// A card, 0 to 7.
#[derive(Clone, Copy, PartialEq, Eq, Debug)]
pub struct Card(pub u8);

// A block of a card's table, 0 to 63.
#[derive(Clone, Copy, PartialEq, Eq, Debug)]
pub struct Block(pub u8);

// A record, 0 to 511.
#[derive(Clone, Copy, PartialEq, Eq, Debug)]
pub struct Rec(pub u16);

// A transaction, 1 to 15.
#[derive(Clone, Copy, PartialEq, Eq, Debug)]
pub struct Tran(pub u8);

// Writes bytes into s from index at. By a loop: the library's copy is one of parts that may overlap, and by it the archive
// would call memmove beside the memcpy and memset that README names.
pub fn write_at(s: &mut [u8], at: usize, bytes: &[u8])
    requires { at + length bytes.now ≤ length s.old }
    ensures { s.new ≡ splice s.old at bytes.now }
{
    for (i, byte) in bytes.iter().enumerate() {
        s[at + i] = *byte;
    }
}

// The N bytes of s from index at.
pub fn read_at<const N: usize>(s: &[u8], at: usize) -> [u8; N]
    requires { at + N ≤ length s.now }
    ensures { result ≡ segment s.now at N }
{
    let mut bytes = [0u8; N];
    let end = at + N;
    bytes.copy_from_slice(&s[at..end]);
    bytes
}

// The block writer: writes a whole block among those of a card's table.
pub fn write_block(blocks: &mut [u8], block: Block, bytes: [u8; BLOCK_SIZE])
    requires { (length blocks.old ≡ blocks_size) × (block.0 < block_count) }
    ensures { blocks.new ≡ splice blocks.old (block_start block.0) bytes }
{
    write_at(blocks, block.0 as usize * BLOCK_SIZE, &bytes);
}

// Where the card's table starts in the image.
fn table_start(card: Card) -> usize
    requires { card.0 < card_count }
    ensures { result ≡ table_start card.0 }
{
    CONTROL_SIZE + card.0 as usize * TABLE_SIZE
}

// Where the card's block starts in the image.
pub fn block_address(card: Card, block: Block) -> usize
    requires { (card.0 < card_count) × (block.0 < block_count) }
    ensures { result ≡ block_address card.0 block.0 }
{
    table_start(card) + block.0 as usize * BLOCK_SIZE
}

// Where the bytes behind the card's blocks start in the image.
pub fn end_start(card: Card) -> usize
    requires { card.0 < card_count }
    ensures { result ≡ end_start card.0 }
{
    table_start(card) + BLOCKS_SIZE
}

// Writes a whole block of a card: the card's blocks, a part from the middle of the image, are lent on to the block writer,
// which so can reach no stamp.
pub fn put_block(image: &mut [u8], card: Card, block: Block, bytes: [u8; BLOCK_SIZE])
    requires { Whole image.old × (card.0 < card_count) × (block.0 < block_count) }
    ensures { image.new ≡ put_block image.old card.0 block.0 bytes }
{
    let start = table_start(card);
    let end = start + BLOCKS_SIZE;
    write_block(&mut image[start..end], block, bytes);
}

// One block of a card.
pub fn get_block(image: &[u8], card: Card, block: Block) -> [u8; BLOCK_SIZE]
    requires { Whole image.now × (card.0 < card_count) × (block.0 < block_count) }
    ensures { result ≡ block_at image.now card.0 block.0 }
{
    read_at(image, block_address(card, block))
}

// Writes zeros over s.
pub fn clear(s: &mut [u8])
    ensures { s.new ≡ zeros (length s.old) }
{
    s.fill(0);
}

// Writes zeros over a card's table, its stamp too.
pub fn clear_table(image: &mut [u8], card: Card)
    requires { Whole image.old × (card.0 < card_count) }
    ensures { image.new ≡ put_table image.old card.0 (zeros table_size) }
{
    let start = table_start(card);
    let end = start + TABLE_SIZE;
    clear(&mut image[start..end]);
}

// Whether all bytes are zero. They are or-ed and tested once, so that the compiler can take many of them at a time.
pub fn all_zero(bytes: &[u8]) -> bool
    ensures { result ≡ all_below (length bytes.now) (λ n. eqb (get_or bytes.now n 0) 0) }
{
    let mut any: u8 = 0;
    for b in bytes {
        any |= *b;
    }
    any == 0
}
