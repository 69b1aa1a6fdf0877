// Masks of cards, and what a mask gives: members, and the sites of a placement whose choice is not by table.
#![tactic(auto)]

ghost use Rattle.std.specs.Prelude.{◌≡◌, ◌&&◌, cond, not, ◌∷◌, [], ◌+◌, ◌-◌, ◌<◌, ◌≤◌, All, leb, length, get_or, drop, take};
ghost use Rattle.std.specs.Int.Bits.{bit_and};
ghost use Rattle.std.specs.Iterator.{YieldsFirstBy, item_count};
ghost use Rattle.lists.specs.Tests.{elem};
ghost use Rattle.image.specs.Layout.{card_count, block_count, copy_count, least_members};
ghost use Rattle.mask.specs.Masks.{
  AreMembers,
  byte,
  bit_of,
  has_card,
  with_card,
  without_card,
  members,
  size,
  common,
  is_within,
  is_within_either,
  are_apart,
  is_one_more,
};
ghost use Rattle.mask.specs.Cards.{cards_left};
ghost use Rattle.mask.specs.Placements.{
  AreSites,
  Enough,
  from_mask,
  mask_sites,
  meant,
  member_at,
  other_rail,
  placed,
  site_list,
};

pub mod pairs;
pub mod site_masks;

use image::{Block, Card};

// The bit of card 0.
const FIRST_BIT: u8 = 0x80;

// The bits of the two supply rails.
const FIRST_RAIL: u8 = 0xf0;

const SECOND_RAIL: u8 = 0x0f;

// The bit of a card.
fn bit_of(card: Card) -> u8
    requires { card.0 < card_count }
    ensures { result ≡ bit_of card.0 }
{
    FIRST_BIT >> card.0
}

// Whether the mask has the card.
pub fn has(mask: u8, card: Card) -> bool
    ensures { result ≡ has_card (byte mask) card.0 }
{
    card.0 < Placement::MOST_CARDS && (mask & bit_of(card)) != 0
}

// How many members.
pub fn members(mask: u8) -> u32
    ensures { result ≡ size (byte mask) }
{
    mask.count_ones()
}

// How many cards are in both.
pub fn common(a: u8, b: u8) -> u32
    ensures { result ≡ common (byte a) (byte b) }
{
    (a & b).count_ones()
}

// Whether every member of a is in b.
pub fn within(a: u8, b: u8) -> bool
    ensures { result ≡ is_within (byte a) (byte b) }
{
    (a & b) == a
}

// Whether every member of a is in b or in c.
pub fn within_either(a: u8, b: u8, c: u8) -> bool
    ensures { result ≡ is_within_either (byte a) (byte b) (byte c) }
{
    within(a, b | c)
}

// Whether no card is in both.
pub fn apart(a: u8, b: u8) -> bool
    ensures { result ≡ are_apart (byte a) (byte b) }
{
    (a & b).count_ones() == 0
}

// The mask with the card.
pub fn with_card(mask: u8, card: Card) -> u8
    requires { card.0 < card_count }
    ensures { byte result ≡ with_card (byte mask) card.0 }
{
    mask | bit_of(card)
}

// The mask of two cards.
pub fn pair(a: Card, b: Card) -> u8
    requires { (a.0 < card_count) × (b.0 < card_count) }
    ensures { AreMembers result (λ c. elem c (a.0 ∷ b.0 ∷ [])) }
{
    with_card(with_card(0, a), b)
}

// The mask of the sites of a block.
pub fn of_sites(sites: [Card; image::COPY_COUNT]) -> u8
    requires { All (λ card. card.0 < card_count) sites }
    ensures { AreMembers result (λ c. elem c (site_list sites)) }
{
    let [first, second] = sites;
    pair(first, second)
}

// The mask without the card.
pub fn without_card(mask: u8, card: Card) -> u8
    requires { card.0 < card_count }
    ensures { byte result ≡ without_card (byte mask) card.0 }
{
    mask & !bit_of(card)
}

// The members of a that b lacks.
pub fn without(a: u8, b: u8) -> u8
    ensures { AreMembers result (λ c. has_card (byte a) c && not (has_card (byte b) c)) }
{
    a & !b
}

// Whether the mask is the base plus exactly one failed card: the first member that the base lacks.
pub fn one_more(failed: u8, base: u8, mask: u8) -> bool
    ensures { result ≡ is_one_more (byte failed) (byte base) (byte mask) }
{
    let first = (mask & !base).leading_zeros() as u8;
    let extra = Card(first);
    has(failed, extra) && mask == with_card(base, extra)
}

// The first member.
pub fn first_member(mask: u8) -> Card
    requires { 0 < length (members (byte mask)) }
    ensures { (result.0 ≡ get_or (members (byte mask)) 0 0) × (result.0 < card_count) }
{
    Card(mask.leading_zeros() as u8)
}

// The first of these members; where there are none, of all: going round.
fn first_or(rest: u8, all: u8) -> Card
    requires { 0 < length (members (byte all)) }
    ensures { (result.0 ≡ get_or (members (byte rest)) 0 (get_or (members (byte all)) 0 0)) × (result.0 < card_count) }
{
    if rest == 0 {
        return first_member(all);
    }
    first_member(rest)
}

// The mask without its first member.
pub fn without_first(mask: u8) -> u8
    requires { 0 < length (members (byte mask)) }
    ensures { (members (byte result) ≡ drop 1 (members (byte mask)))
        × (byte result ≡ without_card (byte mask) (get_or (members (byte mask)) 0 0)) }
{
    without_card(mask, first_member(mask))
}

// The members that are left of a mask, one after the other in rising order.
#[derive(Drop)]
pub struct Cards(u8);

// The members of a mask, in rising order.
pub fn each(mask: u8) -> Cards
    ensures { cards_left result ≡ members (byte mask) }
{
    Cards(mask)
}

impl Iterator for Cards {
    type Item = Card;

    ghost next_gives = { YieldsFirstBy (λ card. card.0) cards_left };

    ghost remaining = { item_count cards_left };

    fn next(&mut self) -> Option<Card> {
        if self.0 == 0 {
            return None;
        }
        let first = first_member(self.0);
        self.0 = without_first(self.0);
        Some(first)
    }
}

// The mask without its last member. Its bit is the lowest one, and `m & (m - 1)` is m with the lowest bit off.
fn without_last(mask: u8) -> u8
    requires { 0 < length (members (byte mask)) }
    ensures { members (byte result) ≡ take (length (members (byte mask)) - 1) (members (byte mask)) }
{
    mask & (mask - 1)
}

// The last member: the mask less itself without it is that member's bit.
fn last_member(mask: u8) -> u8
    requires { 0 < length (members (byte mask)) }
    ensures { result ≡ get_or (members (byte mask)) (length (members (byte mask)) - 1) 0 }
{
    (mask - (mask & (mask - 1))).leading_zeros() as u8
}

// Member number i, in rising order: the last once all behind it are taken off. To take off the last needs fewer
// instructions than to take off the first.
pub fn nth_member(mask: u8, i: u8) -> u8
    requires { i < length (members (byte mask)) }
    ensures { result ≡ get_or (members (byte mask)) i 0 }
{
    let behind = members(mask) as u8 - 1 - i;
    let mut left = mask;
    for _ in 0..behind {
        left = without_last(left);
    }
    last_member(left)
}

// The bits of the rail that the card is not on: cards 0 to 3 hang on one supply rail and 4 to 7 on the other.
#[tactic(auto, unfolding(crate::specs::Placements::other_rail))]
fn other_rail(card: Card) -> u8
    ensures { result ≡ other_rail card.0 }
{
    if card.0 < image::RAIL_SIZE {
        SECOND_RAIL
    } else {
        FIRST_RAIL
    }
}

// A placement whose sites its mask gives: which cards, and whether they are chosen by rails or as the base does. The
// pairs of a placement by table are not in it.
#[derive(Clone, Copy)]
pub struct Placement {
    pub mask: u8,
    pub rails: bool,
}

impl Placement {
    // The cards of a cabinet, and the members that two copies need.
    pub const MOST_CARDS: u8 = image::CARD_COUNT as u8;

    pub const LEAST_MEMBERS: u32 = image::LEAST_MEMBERS;

    // A placement comes from its mask alone: what start, place and fail make is by rails.
    pub fn from_mask(mask: u8) -> Placement
        ensures { placed (meant result) ≡ from_mask (byte mask) }
    {
        Placement { mask, rails: true }
    }

    // Whether there are as many members as copies.
    pub fn is_usable(self) -> bool
        ensures { result ≡ leb least_members (size (meant self).mask) }
    {
        self.mask.count_ones() >= Placement::LEAST_MEMBERS
    }

    // Member number i, going round.
    fn member_at(self, i: u8) -> Card
        requires { copy_count ≤ size (byte self.mask) }
        ensures { (result.0 ≡ member_at (byte self.mask) i) × (result.0 < card_count) }
    {
        Card(nth_member(self.mask, i % self.mask.count_ones() as u8))
    }

    // The member after the block's first site, going round: the first of those behind it, or else of all.
    fn next_member(self, block: Block, first: Card) -> Card
        requires copy_count_bound { copy_count ≤ size (byte self.mask) }
        requires first_value { first.0 ≡ member_at (byte self.mask) block.0 }
        ensures { result.0 ≡ member_at (byte self.mask) (block.0 + 1) }
    {
        first_or(self.mask & (bit_of(first) - 1), self.mask)
    }

    // The members on the other rail than the card, where the sites are by rails; else none.
    fn across(self, card: Card) -> u8
        ensures { result ≡ cond self.rails (bit_and self.mask (other_rail card.0)) 0 }
    {
        if self.rails {
            self.mask & other_rail(card)
        } else {
            0
        }
    }

    // The second site: the first of the members on the other rail than the first site. If there is none, or the sites
    // are not by rails, it is the next member.
    fn second_site(self, block: Block, first: Card) -> Card
        requires copy_count_bound { copy_count ≤ size (byte self.mask) }
        requires block_lt_block_count { block.0 < block_count }
        requires first_value { first.0 ≡ member_at (byte self.mask) block.0 }
        ensures { mask_sites (meant self) block.0 ≡ first.0 ∷ result.0 ∷ [] }
    {
        let across = self.across(first);
        if across == 0 {
            return self.next_member(block, first);
        }
        Card(across.leading_zeros() as u8)
    }

    // The sites of a block, in the order of the rules: different members, on two rails whenever both have members and the
    // placement is by rails.
    pub fn sites(self, block: Block) -> [Card; image::COPY_COUNT]
        requires enough { Enough (meant self).mask }
        requires block_lt_block_count { block.0 < block_count }
        ensures { AreSites result (placed (meant self)) block.0 }
    {
        let first = self.member_at(block.0);
        let second = self.second_site(block, first);
        [first, second]
    }
}
