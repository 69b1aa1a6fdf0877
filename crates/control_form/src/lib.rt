// The control form, a clause a function, and the reader that checks it.
#![tactic(auto)]

ghost use Rattle.std.specs.Prelude.{◌≡◌, true, false, ◌+◌, ◌≤◌, ◌<◌, ℕ, length, get_or};
ghost use Rattle.lists.specs.Tests.{all_below};
ghost use Rattle.image.specs.Layout.{control_size, most_active, tail_size};
ghost use Rattle.image.specs.Parts.{Whole};
ghost use Rattle.mask.specs.Masks.{byte};
ghost use Rattle.control.specs.ControlBytes.{control_of, count_in, homes_at, homes_end, masks_at, serial_end, stopped_in, working_at};
ghost use Rattle.control_form.specs.ControlForm.{all_safe, control_form, count_ok, front_ok, is_safe, members_ok};
ghost use Rattle.control.specs.Meaning.{meaning, Counted};
ghost use Rattle.control_form.specs.Reading.{
  Reads,
  TestsPairs,
  all_from,
  chain_in,
  home_fits_at,
  home_ok_at,
  is_home_at,
  is_zero_at,
  kept_ok_at,
  marks_ok,
  mask_test,
  newest_in,
  other_zeros,
  placement_ok,
  serials_in,
};

mod words;

use control::codec::{
    FAILED_AT, FIELD, FIELD_BOUND, HOMES_AT, HOMES_END, MARKS_AT, MASKS_AT, RAIL_WEIGHT, SERIAL_AT,
    STOPPED, WORKING_AT, decode, free_marks,
};
use control::{Control, FIRST_TABLE_MARK, MASK_COUNT, serials};
use image::MOST_ACTIVE;
use refusals::Refusal;
use words::WORD_SIZE;

// The mask of all cards.
const ALL_CARDS: u8 = 0xff;

// The last mask, and the one before it.
const FOURTH_AT: usize = MASKS_AT + MASK_COUNT - 1;

const THIRD_AT: usize = FOURTH_AT - 1;

// Bits of a byte.
const BYTE_BITS: u8 = 8;

// The transactions' bytes are those of two words, of which the second starts at the last byte of the first.
const SECOND_AT: usize = HOMES_END - WORD_SIZE;

// The last word, and the weight of its bytes behind the serial's.
const LAST_AT: usize = image::CONTROL_SIZE - WORD_SIZE;

const BEHIND_SERIAL: u64 = 0x1_0000;

// Every record lies on as many cards.
pub const COPIES: u32 = image::COPY_COUNT as u32;

// Count is 1 to 4.
#[tactic(auto, unfolding(crate::specs::ControlForm::count_ok))]
fn count_ok(s: &[u8]) -> bool
    requires { control_size ≤ length s.now }
    ensures { result ≡ count_ok (λ n. get_or s.now n 0) }
{
    let count = s[0] / FIELD % FIELD_BOUND;
    1 <= count && count <= MOST_ACTIVE
}

// The masks from the count on are zero.
fn masks_end(s: &[u8], count: u8) -> bool
    requires control_size_in_bounds { control_size ≤ length s.now }
    requires le_count { (1 ≤ count) × (count ≤ most_active) }
    ensures { result ≡ all_from (masks_at + count) working_at (is_zero_at s.now) }
{
    words::half(s, MASKS_AT) >> (count * BYTE_BITS) == 0
}

// The bytes behind the serial are zero.
fn tail_ok(s: &[u8]) -> bool
    requires { control_size ≤ length s.now }
    ensures { result ≡ all_from serial_end control_size (is_zero_at s.now) }
{
    words::word(s, LAST_AT) / BEHIND_SERIAL == 0
}

// No placement that is not there has a mark, and none has both.
#[tactic(auto, unfolding(crate::specs::Reading::marks_ok))]
fn marks_ok(count: u8, marks: u8) -> bool
    requires { count ≤ most_active }
    ensures { result ≡ marks_ok count marks }
{
    (marks & free_marks(count)) == 0 && ((marks / RAIL_WEIGHT) & (marks % RAIL_WEIGHT)) == 0
}

// Zero fields are zero, but for the transactions' bytes. Masks that count, working and failed have none.
#[tactic(auto, unfolding(crate::specs::Reading::other_zeros))]
fn zero_fields_ok(s: &[u8]) -> bool
    requires control_size_in_bounds { control_size ≤ length s.now }
    requires n_value { count_ok (λ n. get_or s.now n 0) ≡ true }
    ensures { result ≡ other_zeros s.now }
{
    let count = s[0] / FIELD % FIELD_BOUND;
    s[0] % FIELD == 0 && masks_end(s, count) && marks_ok(count, s[MARKS_AT]) && tail_ok(s)
}

// A placement with this mask has members enough, each working or failed.
#[tactic(auto, unfolding(crate::specs::ControlForm::members_ok))]
fn members_ok(working: u8, failed: u8, mask: u8) -> bool
    ensures { result ≡ members_ok (byte working) (byte failed) (byte mask) }
{
    mask::members(mask) >= mask::Placement::LEAST_MEMBERS
        && mask::within_either(mask, working, failed)
}

// Of four placements the third has one failed card more than the fourth.
fn fourth_ok(s: &[u8]) -> bool
    requires control_size_in_bounds { control_size ≤ length s.now }
    requires n_value { count_ok (λ n. get_or s.now n 0) ≡ true }
    ensures { result ≡ chain_in s.now }
{
    s[0] / FIELD % FIELD_BOUND != MOST_ACTIVE
        || mask::one_more(s[FAILED_AT], s[FOURTH_AT], s[THIRD_AT])
}

// In a running store all members of the newest placement work.
#[tactic(auto, unfolding(crate::specs::Reading::newest_in))]
fn newest_works(s: &[u8]) -> bool
    requires { control_size ≤ length s.now }
    ensures { result ≡ newest_in s.now }
{
    let count = (s[0] / FIELD % FIELD_BOUND) as usize;
    s[0] >= STOPPED || mask::within(s[MASKS_AT + count - 1], s[WORKING_AT])
}

// A placement with this mask has fewer failed members than copies, and at least as many working ones as copies.
#[tactic(auto, unfolding(crate::specs::ControlForm::is_safe))]
fn is_safe(working: u8, failed: u8, mask: u8) -> bool
    ensures { result ≡ is_safe (byte working) (byte failed) (byte mask) }
{
    mask::common(mask, failed) < COPIES && mask::common(mask, working) >= COPIES
}

// Every active placement has fewer failed members than copies, and at least as many working ones: where not, the store
// stops.
pub fn all_safe(k: Control) -> bool
    requires { Counted k }
    ensures { result ≡ all_safe (meaning k) }
{
    for i in 0..k.count as usize {
        if !is_safe(k.working, k.failed, k.masks[i]) {
            return false;
        }
    }
    true
}

// A placement with this mask has members enough, each working or failed; in a running store fewer than copies are
// failed, and at least as many work.
#[tactic(auto, unfolding(crate::specs::Reading::placement_ok))]
fn placement_ok(stopped: bool, working: u8, failed: u8, mask: u8) -> bool
    ensures { result ≡ placement_ok stopped (byte working) (byte failed) (byte mask) }
{
    members_ok(working, failed, mask) && (stopped || is_safe(working, failed, mask))
}

// Each active placement is so.
fn placements_ok(s: &[u8]) -> bool
    requires { control_size ≤ length s.now }
    ensures { result ≡ all_below (count_in (get_or s.now 0 0))
        (mask_test (placement_ok (stopped_in (get_or s.now 0 0))) s.now) }
{
    let stopped = s[0] >= STOPPED;
    let count = (s[0] / FIELD % FIELD_BOUND) as usize;
    let working = s[WORKING_AT];
    let failed = s[FAILED_AT];
    for i in 0..count {
        if !placement_ok(stopped, working, failed, s[MASKS_AT + i]) {
            return false;
        }
    }
    true
}

// No transaction is open.
fn none_open(s: &[u8]) -> bool
    requires control_size_in_bounds { control_size ≤ length s.now }
    requires s_value { all_from homes_at homes_end (is_home_at s.now) ≡ true }
    ensures { result ≡ all_from homes_at homes_end (home_ok_at true s.now) }
{
    words::word(s, HOMES_AT) == 0 && words::word(s, SECOND_AT) == 0
}

// Each open transaction's home works: none is a card that does not.
fn homes_work(s: &[u8]) -> bool
    requires control_size_in_bounds { control_size ≤ length s.now }
    requires s_value { all_from homes_at homes_end (is_home_at s.now) ≡ true }
    ensures { result ≡ all_from homes_at homes_end (home_ok_at false s.now) }
{
    let idle = mask::without(ALL_CARDS, s[WORKING_AT]);
    for card in mask::each(idle) {
        if !words::lack_home(s, HOMES_AT, card) {
            return false;
        }
        if !words::lack_home(s, SECOND_AT, card) {
            return false;
        }
    }
    true
}

// Every transaction's byte is all zero when not open, and else zero behind the home card; where it is open, the store is
// not stopped and its home works.
fn homes_ok(s: &[u8]) -> bool
    requires { control_size ≤ length s.now }
    ensures { result ≡ all_from homes_at homes_end (home_fits_at s.now) }
{
    if !(words::are_homes(s, HOMES_AT) && words::are_homes(s, SECOND_AT)) {
        return false;
    }
    if s[0] >= STOPPED {
        return none_open(s);
    }
    homes_work(s)
}

// The serial is not below the count, and with the newest placement's members added not above the most. Up to the limit
// they need not be counted, as there are no more members than cards.
fn serial_ok(s: &[u8]) -> bool
    requires { control_size ≤ length s.now }
    ensures { result ≡ serials_in s.now }
{
    let serial = serials::read(s, SERIAL_AT);
    let count = s[0] / FIELD % FIELD_BOUND;
    if serial < count as u32 {
        return false;
    }
    if serial <= serials::LIMIT {
        return true;
    }
    serial + mask::members(s[MASKS_AT + count as usize - 1]) <= serials::MOST
}

// What the control form asks of the bytes before the tables; it does not look at the bytes t behind them.
pub fn front_ok(s: &[u8]) -> bool
    requires { control_size ≤ length s.now }
    ensures { (t : ℕ → ℕ)
        → result ≡ front_ok (control_of (λ n. get_or s.now n 0) t) (λ n. get_or s.now n 0) }
{
    count_ok(s)
        && zero_fields_ok(s)
        && mask::apart(s[WORKING_AT], s[FAILED_AT])
        && placements_ok(s)
        && fourth_ok(s)
        && newest_works(s)
        && homes_ok(s)
        && serial_ok(s)
}

// What the bytes behind the tables keep for placement i is zero where it has no mark for a table, and else pairs of
// different members, which are_pairs tests.
fn kept_ok<F: Fn(&[u8], u8) -> bool>(front: &[u8], tail: &[u8], are_pairs: &F, i: usize) -> bool
    requires sizes { (control_size ≤ length front.now) × (length tail.now ≡ tail_size) × (i < most_active) }
    requires tests { TestsPairs (F.pre are_pairs.now) (F.post are_pairs.now) }
    ensures { result ≡ kept_ok_at front.now (λ n. get_or tail.now n 0) i }
{
    let start = i * image::PAIRS_SIZE;
    let end = start + image::PAIRS_SIZE;
    let mark = FIRST_TABLE_MARK >> i;
    if (front[MARKS_AT] & mark) != 0 {
        return are_pairs(&tail[start..end], front[MASKS_AT + i]);
    }
    image::all_zero(&tail[start..end])
}

// What the control form asks of the bytes behind the tables: so it is for each placement. How pairs are tested is the
// caller's, so that each caller's test is compiled into its own copy.
pub fn behind_ok<F: Fn(&[u8], u8) -> bool>(front: &[u8], tail: &[u8], are_pairs: F) -> bool
    requires sizes { (control_size ≤ length front.now) × (length tail.now ≡ tail_size) }
    requires tests { TestsPairs (F.pre are_pairs) (F.post are_pairs) }
    ensures { result ≡ all_below most_active (kept_ok_at front.now (λ n. get_or tail.now n 0)) }
{
    for i in 0..MASK_COUNT {
        if !kept_ok(front, tail, &are_pairs, i) {
            return false;
        }
    }
    true
}

// The control form of an image. Where no placement has a mark for a table, all bytes behind the tables are tested at once.
fn form_ok(image: &[u8]) -> bool
    requires { Whole image.now }
    ensures { result ≡ control_form image.now }
{
    if !front_ok(image) {
        return false;
    }
    if image[MARKS_AT] % RAIL_WEIGHT == 0 {
        return image::all_zero(&image[image::TAIL_START..image::IMAGE_SIZE]);
    }
    behind_ok(
        image,
        &image[image::TAIL_START..image::IMAGE_SIZE],
        mask::pairs::are_pairs_of,
    )
}

// The control part of an image, or why it cannot be read.
pub fn read(image: &[u8]) -> Result<Control, Refusal>
    ensures { Reads image.now result }
{
    if image.len() != image::IMAGE_SIZE {
        return Err(Refusal::Length);
    }
    if !form_ok(image) {
        return Err(Refusal::ControlForm);
    }
    Ok(decode(image))
}
