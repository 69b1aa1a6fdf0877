// Bytes of the control part as numbers of four and of eight bytes, the first byte lowest: what is asked of each of them
// is asked of all at once.
ghost use Rattle.std.specs.Prelude.{◌≡◌, true, not, ◌+◌, ◌≤◌, ◌<◌, ◌^◌, length, get_or};
ghost use Rattle.lists.specs.Bytes.{of_bytes};
ghost use Rattle.image.specs.Layout.{card_count};
ghost use Rattle.method.specs.ControlPart.{is_card};
ghost use Rattle.control.specs.ControlBytes.{home_in};
ghost use Rattle.control_form.specs.Reading.{all_from, half_size, is_home_at, word_size};

use control::codec::{FIELD, FIELD_BOUND, OPEN};
use image::Card;

// Bytes of a word, and half of them.
pub const WORD_SIZE: usize = 8;

const HALF_SIZE: usize = 4;

// The byte 1, eight times.
const ONES: u64 = 0x0101_0101_0101_0101;

// The highest bit of each byte.
const OPENS: u64 = OPEN as u64 * ONES;

// Four bits; and by how much the highest bit of a byte outweighs the lowest of its upper four.
const NIBBLE: u64 = FIELD as u64 - 1;

const DOWN: u64 = FIELD_BOUND as u64;

// Four bits, and the bit behind them, in each byte.
const NIBBLES: u64 = NIBBLE * ONES;

const CARRIES: u64 = FIELD as u64 * ONES;

// The four bytes from an index on.
pub fn half(s: &[u8], at: usize) -> u64
    requires { at + half_size ≤ length s.now }
    ensures { (result ≡ of_bytes (λ i. get_or s.now (at + i) 0) half_size) × (result < 2 ^ 32) }
{
    u64::from(s[at])
        + u64::from(s[at + 1]) * 0x100
        + u64::from(s[at + 2]) * 0x1_0000
        + u64::from(s[at + 3]) * 0x100_0000
}

// The eight bytes from an index on.
pub fn word(s: &[u8], at: usize) -> u64
    requires { at + word_size ≤ length s.now }
    ensures { result ≡ of_bytes (λ i. get_or s.now (at + i) 0) word_size }
{
    half(s, at) + half(s, at + HALF_SIZE) * 0x1_0000_0000
}

// Eight transactions' bytes are zero or open, with nothing behind the home card: where the highest bit is set it lets the
// upper four bits stand, and every bit must be among those that stand.
pub fn are_homes(s: &[u8], at: usize) -> bool
    requires { at + word_size ≤ length s.now }
    ensures { result ≡ all_from at (at + word_size) (is_home_at s.now) }
{
    let w = word(s, at);
    (w & ((w & OPENS) / DOWN * NIBBLE)) == w
}

// None of eight transactions' bytes is open with this home: its upper four bits differ from those of such a byte, and
// where they do, 15 more carry into the bit behind them.
pub fn lack_home(s: &[u8], at: usize, home: Card) -> bool
    requires word_size_in_bounds { at + word_size ≤ length s.now }
    requires home_lt_card_count { home.0 < card_count }
    requires s_value { all_from at (at + word_size) (is_home_at s.now) ≡ true }
    ensures { result ≡ all_from at (at + word_size) (λ n. not (is_card (home_in (get_or s.now n 0)) home.0)) }
{
    let w = word(s, at);
    let differ = (w / FIELD as u64) ^ (u64::from(FIELD_BOUND + home.0) * ONES);
    ((differ + NIBBLES) & CARRIES) == CARRIES
}
