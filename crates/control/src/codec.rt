// The control part's 32 bytes before the tables: the struct read off them, and written as a whole.
ghost use Rattle.std.specs.Prelude.{◌≡◌, true, cond, ◌-◌, ◌≤◌, ◌<◌, ltb, get_or, length};
ghost use Rattle.std.proofs.Math.Option.{some};
ghost use Rattle.lists.specs.Tabulate.{tabulate};
ghost use Rattle.image.specs.Layout.{card_count, control_size, tran_bound, most_active};
ghost use Rattle.method.specs.ControlPart.{is_card, is_open};
ghost use Rattle.method.specs.Slots.{is_some};
ghost use Rattle.control.specs.ControlBytes.{control_byte, control_of, home_byte, home_in, stopped_bit, tail_at};
ghost use Rattle.control.specs.Meaning.{clean_marks, free_marks, struct_of, meaning, Counted, put_control};

use crate::{Control, MASK_COUNT, serials};
use image::{Card, TRAN_COUNT, Tran};

// Where the fields start, each behind the one before; the first byte, 0, has the stopped bit and the count. Those from
// SERIAL_END on are zero.
pub const MASKS_AT: usize = 1;

pub const WORKING_AT: usize = MASKS_AT + MASK_COUNT;

pub const FAILED_AT: usize = WORKING_AT + 1;

pub const MARKS_AT: usize = FAILED_AT + 1;

pub const HOMES_AT: usize = MARKS_AT + 1;

pub const HOMES_END: usize = HOMES_AT + TRAN_COUNT;

pub const SERIAL_AT: usize = HOMES_END;

pub const SERIAL_END: usize = SERIAL_AT + serials::SIZE;

// All bits of the marks; those for tables; by how much a mark for rails outweighs that for a table; both halves of a
// byte.
const ALL_MARKS: u8 = 0xff;

pub const TABLE_MARKS: u8 = 0x0f;

pub const RAIL_WEIGHT: u8 = 16;

const BOTH_HALVES: u8 = RAIL_WEIGHT + 1;

// The highest bit: stopped in the first byte, open in a transaction's byte.
pub const STOPPED: u8 = 0x80;

pub const OPEN: u8 = 0x80;

// The weight of the three bits behind it, and their bound: the count, or the home card.
pub const FIELD: u8 = 16;

pub const FIELD_BOUND: u8 = 8;

// The home card in the byte of an open transaction.
fn home_of(b: u8) -> u8
    requires { is_some (home_in b) ≡ true }
    ensures { (home_in b ≡ some result) × (result < card_count) }
{
    b / FIELD % FIELD_BOUND
}

// Whether a transaction's byte is open with this home card: its upper four bits are the field's bound and the
// card.
pub fn is_home(b: u8, card: Card) -> bool
    ensures { result ≡ is_card (home_in b) card.0 }
{
    (b / FIELD) as u16 == FIELD_BOUND as u16 + card.0 as u16
}

// A transaction's byte, all zero when not open.
fn home_byte(b: u8) -> u8
    ensures { result ≡ home_byte (home_in b) }
{
    if b >= OPEN {
        return OPEN + home_of(b) * FIELD;
    }
    0
}

// The stopped bit of the first byte.
fn stopped_bit(stopped: bool) -> u8
    ensures { result ≡ cond stopped stopped_bit 0 }
{
    if stopped {
        return STOPPED;
    }
    0
}

// The byte of mask i, zero from the count on.
fn mask_byte(count: u8, i: usize, mask: u8) -> u8
    ensures { result ≡ cond (ltb i count) mask 0 }
{
    if i < count as usize {
        return mask;
    }
    0
}

// The marks of placements that are not there.
pub fn free_marks(count: u8) -> u8
    requires { count ≤ most_active }
    ensures { result ≡ free_marks count }
{
    (TABLE_MARKS >> count) * BOTH_HALVES
}

// The marks as they are written: none of a placement that is not there, and none for rails beside one for a table.
pub fn clean_marks(count: u8, marks: u8) -> u8
    requires { count ≤ most_active }
    ensures { result ≡ clean_marks count marks }
{
    let single = marks & (ALL_MARKS - marks % RAIL_WEIGHT * RAIL_WEIGHT);
    single & (ALL_MARKS - free_marks(count))
}

// A whole new control part.
pub fn encode(k: Control) -> [u8; image::CONTROL_SIZE]
    requires { Counted k }
    ensures { result ≡ tabulate control_size (control_byte (meaning k)) }
{
    let mut bytes = [0u8; image::CONTROL_SIZE];
    bytes[0] = stopped_bit(k.stopped) + k.count * FIELD;
    for i in 0..MASK_COUNT {
        bytes[MASKS_AT + i] = mask_byte(k.count, i, k.masks[i]);
    }
    bytes[WORKING_AT] = k.working;
    bytes[FAILED_AT] = k.failed;
    bytes[MARKS_AT] = clean_marks(k.count, k.marks);
    for t in 0..TRAN_COUNT {
        bytes[HOMES_AT + t] = home_byte(k.homes[t]);
    }
    let serial = serials::bytes(k.serial);
    bytes[SERIAL_AT] = serial[0];
    bytes[SERIAL_AT + 1] = serial[1];
    bytes[SERIAL_AT + 2] = serial[2];
    bytes
}

// Writes other control bytes before the tables.
pub fn write(image: &mut [u8], k: Control)
    requires control_size_in_bounds { control_size ≤ length image.old }
    requires counted { Counted k }
    ensures { image.new ≡ put_control image.old (meaning k) }
{
    let bytes = encode(k);
    image::write_at(image, 0, &bytes);
}

// The struct that the control bytes show.
pub fn decode(s: &[u8]) -> Control
    requires { control_size ≤ length s.now }
    ensures { result ≡ struct_of s.now }
{
    Control {
        stopped: s[0] >= STOPPED,
        count: s[0] / FIELD % FIELD_BOUND,
        masks: [
            s[MASKS_AT],
            s[MASKS_AT + 1],
            s[MASKS_AT + 2],
            s[MASKS_AT + 3],
        ],
        working: s[WORKING_AT],
        failed: s[FAILED_AT],
        marks: s[MARKS_AT],
        homes: [
            s[HOMES_AT],
            s[HOMES_AT + 1],
            s[HOMES_AT + 2],
            s[HOMES_AT + 3],
            s[HOMES_AT + 4],
            s[HOMES_AT + 5],
            s[HOMES_AT + 6],
            s[HOMES_AT + 7],
            s[HOMES_AT + 8],
            s[HOMES_AT + 9],
            s[HOMES_AT + 10],
            s[HOMES_AT + 11],
            s[HOMES_AT + 12],
            s[HOMES_AT + 13],
            s[HOMES_AT + 14],
        ],
        serial: serials::read(s, SERIAL_AT),
    }
}

// Whether the transaction is open, read off its byte without the rest of the struct.
pub fn is_open_at(s: &[u8], tran: Tran) -> bool
    requires control_size_in_bounds { control_size ≤ length s.now }
    requires tran_nonzero { (0 < tran.0) × (tran.0 < tran_bound) }
    ensures { result ≡ is_open (control_of (λ n. get_or s.now n 0) (tail_at s.now)) tran.0 }
{
    s[HOMES_AT + (tran.0 - 1) as usize] >= OPEN
}
