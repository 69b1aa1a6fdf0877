// The pairs of a placement by table: of each block its two cards, in six bits. They are read and written by groups of
// four blocks in three bytes.
ghost use Rattle.std.specs.Prelude.{◌≡◌, ◌∷◌, [], ◌*◌, ◌<◌, ◌^◌, length, get_or};
ghost use Rattle.lists.specs.Tests.{all_below, elem, one_if};
ghost use Rattle.image.specs.Layout.{block_count, pairs_size};
ghost use Rattle.mask.specs.Masks.{AreMembers, byte};
ghost use Rattle.mask.specs.Pairs.{
  blocks_in_group,
  first_card,
  group_at,
  group_of,
  group_size,
  is_pair_of,
  pair_at,
  pair_bound,
  pair_in_group,
  pairs_from,
  second_card,
};
ghost use Rattle.mask.specs.PairSets.{AreGoodPairs, has_pair, top_bit};
ghost use Rattle.mask.specs.Placements.{site_list};
ghost use Rattle.mask.specs.SiteMasks.{MasksBelow};

use image::{Block, Card};

// The blocks of a group and their bytes.
const BLOCKS_IN_GROUP: u8 = 4;

const GROUP_SIZE: usize = 3;

const GROUP_COUNT: usize = image::PAIRS_SIZE / GROUP_SIZE;

// The bits of a pair, and the number of pairs.
const PAIR_BITS: u64 = 6;

const CARD_COUNT: u8 = image::CARD_COUNT as u8;

const PAIR_COUNT: u64 = image::CARD_COUNT as u64 * image::CARD_COUNT as u64;

// What a pair counts in a group's bits, by its place. At the last it counts 1.
const THIRD_PLACE: u64 = PAIR_COUNT;

const SECOND_PLACE: u64 = THIRD_PLACE * PAIR_COUNT;

const FIRST_PLACE: u64 = SECOND_PLACE * PAIR_COUNT;

// Eight rows of eight bits: 1 in each; in each the bit of the row's own card; the highest bit, and all others, of a row.
const ROWS: u64 = 0x0101_0101_0101_0101;

const OWN_BITS: u64 = 0x8040_2010_0804_0201;

const HIGH_BIT: u64 = 0x80;

const LOW_BITS: u64 = 0x7f * ROWS;

// The highest bit of 64.
const TOP_BIT: u64 = 0x8000_0000_0000_0000;

// The 24 bits of a group. No number of the library has three bytes.
fn group(pairs: &[u8], q: usize) -> u64
    requires { (length pairs.now ≡ pairs_size) × (q * group_size < pairs_size) }
    ensures { (result ≡ group_at (λ j. get_or pairs.now j 0) q) × (result < 256 ^ group_size) }
{
    let at = q * GROUP_SIZE;
    (u64::from(pairs[at]) * 0x100 + u64::from(pairs[at + 1])) * 0x100 + u64::from(pairs[at + 2])
}

// The pair at a place of such bits.
fn pair_in(bits: u64, place: u8) -> u8
    requires { place < blocks_in_group }
    ensures { (result ≡ pair_in_group bits place) × (result < pair_bound) }
{
    let below = u64::from(BLOCKS_IN_GROUP - 1 - place);
    ((bits >> (PAIR_BITS * below)) % PAIR_COUNT) as u8
}

// The pair of a block, as one number.
pub fn pair_at(pairs: &[u8], block: Block) -> u8
    requires { (length pairs.now ≡ pairs_size) × (block.0 < block_count) }
    ensures { (result ≡ pair_at (λ j. get_or pairs.now j 0) block.0) × (result < pair_bound) }
{
    let q = block.0 / BLOCKS_IN_GROUP;
    pair_in(group(pairs, q as usize), block.0 % BLOCKS_IN_GROUP)
}

// The two cards of a pair, as the sites of a block.
pub fn sites(pair: u8) -> [Card; image::COPY_COUNT]
    requires { pair < pair_bound }
    ensures { site_list result ≡ first_card pair ∷ second_card pair ∷ [] }
{
    [Card(pair / CARD_COUNT), Card(pair % CARD_COUNT)]
}

// The mask of the two cards of the pair at a place of a group's bits.
fn mask_in(bits: u64, place: u8) -> u8
    requires { place < blocks_in_group }
    ensures { AreMembers result (λ c. elem c (first_card (pair_in_group bits place) ∷ second_card (pair_in_group bits place) ∷ [])) }
{
    crate::of_sites(sites(pair_in(bits, place)))
}

// The masks of the sites of all blocks, group by group.
pub fn fill(masks: &mut [u8], pairs: &[u8])
    requires { (length masks.old ≡ block_count) × (length pairs.now ≡ pairs_size) }
    ensures { (length masks.new ≡ block_count)
        × MasksBelow (λ b c. elem c (first_card (pair_at (λ j. get_or pairs.now j 0) b)
        ∷ second_card (pair_at (λ j. get_or pairs.now j 0) b) ∷ [])) masks.new block_count }
{
    for q in 0..GROUP_COUNT {
        let bits = group(pairs, q);
        let b = q * BLOCKS_IN_GROUP as usize;
        for place in 0..BLOCKS_IN_GROUP {
            masks[b + place as usize] = mask_in(bits, place);
        }
    }
}

// The pairs of two different members of a mask, as a set of 64 bits, pair 0 the highest. The row of a first card is a
// byte: the mask without that card, where the mask has it.
fn good_pairs(mask: u8) -> u64
    ensures { AreGoodPairs result (byte mask) }
{
    let m = u64::from(mask);
    let own = (m * ROWS) & OWN_BITS;
    let rows = ((own + LOW_BITS) / HIGH_BIT) & ROWS;
    rows * m - own
}

// The highest bit of the result is set where the set has all four pairs of such bits.
fn four_in(set: u64, bits: u64) -> u64
    requires { bits < 256 ^ group_size }
    ensures { top_bit result ≡ one_if (all_below blocks_in_group (λ k. has_pair set (pair_in_group bits k))) }
{
    (set << (bits / FIRST_PLACE))
        & (set << (bits / SECOND_PLACE % PAIR_COUNT))
        & (set << (bits / THIRD_PLACE % PAIR_COUNT))
        & (set << (bits % PAIR_COUNT))
}

// Whether the pair of every block is two different members of the mask. All are looked up in one set, with no branch a
// pair, and two groups a turn, so that the compiler unrolls the loop.
pub fn are_pairs_of(pairs: &[u8], mask: u8) -> bool
    requires { length pairs.now ≡ pairs_size }
    ensures { result ≡ all_below block_count (λ b. is_pair_of (byte mask) (pair_at (λ j. get_or pairs.now j 0) b)) }
{
    let good = good_pairs(mask);
    let mut all = TOP_BIT;
    for i in 0..GROUP_COUNT / 2 {
        let q = i * 2;
        all = all & four_in(good, group(pairs, q)) & four_in(good, group(pairs, q + 1));
    }
    all / TOP_BIT == 1
}

// The 24 bits of the four pairs of a group.
fn group_of(pairs: [u8; image::BLOCK_COUNT], q: usize) -> u64
    requires { q * blocks_in_group < block_count }
    ensures { result ≡ group_of (λ b. get_or pairs b 0) q }
{
    let b = q * BLOCKS_IN_GROUP as usize;
    ((u64::from(pairs[b]) * PAIR_COUNT + u64::from(pairs[b + 1])) * PAIR_COUNT
        + u64::from(pairs[b + 2]))
        * PAIR_COUNT
        + u64::from(pairs[b + 3])
}

// The bytes that keep the pairs of the blocks.
pub fn pack(pairs: [u8; image::BLOCK_COUNT]) -> [u8; image::PAIRS_SIZE]
    ensures { result ≡ (pairs_from (λ b. get_or pairs b 0)).0 }
{
    let mut bytes = [0u8; image::PAIRS_SIZE];
    for q in 0..GROUP_COUNT {
        let n = group_of(pairs, q);
        let at = q * GROUP_SIZE;
        bytes[at] = (n / 0x1_0000 % 0x100) as u8;
        bytes[at + 1] = (n / 0x100 % 0x100) as u8;
        bytes[at + 2] = (n % 0x100) as u8;
    }
    bytes
}
