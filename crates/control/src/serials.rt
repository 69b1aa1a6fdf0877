// Serials of placements: three bytes, the most significant first.
ghost use Rattle.std.specs.Prelude.{◌≡◌, suc, ◌+◌, ◌≤◌, ◌<◌, get_or, length};
ghost use Rattle.lists.specs.Tabulate.{tabulate};
ghost use Rattle.control.specs.ControlBytes.{serial_size};
ghost use Rattle.control.specs.Serials.{serial_bound, serial_byte, serial_in};

// Bytes of a serial; that of a start; that from which on a placement is refused; the most that it may be with the newest
// placement's members added.
pub const SIZE: usize = 3;

pub const FIRST: u32 = 1;

pub const LIMIT: u32 = 16_777_000;

pub const MOST: u32 = LIMIT + image::CARD_COUNT as u32;

// The weights of its first two bytes, and the bound of each.
const FIRST_WEIGHT: u32 = 0x1_0000;

const SECOND_WEIGHT: u32 = 0x100;

const BYTE_BOUND: u32 = 0x100;

// That of the placement added next.
pub fn next(serial: u32) -> u32
    requires { serial < serial_bound }
    ensures { result ≡ suc serial }
{
    serial + 1
}

// The serial in the three bytes from index at.
pub fn read(s: &[u8], at: usize) -> u32
    requires { at + serial_size ≤ length s.now }
    ensures { (result ≡ serial_in (λ j. get_or s.now (at + j) 0)) × (result < serial_bound) }
{
    u32::from(s[at]) * FIRST_WEIGHT + u32::from(s[at + 1]) * SECOND_WEIGHT + u32::from(s[at + 2])
}

// Its bytes.
pub fn bytes(serial: u32) -> [u8; SIZE]
    ensures { result ≡ tabulate serial_size (serial_byte serial) }
{
    [
        (serial / FIRST_WEIGHT % BYTE_BOUND) as u8,
        (serial / SECOND_WEIGHT % BYTE_BOUND) as u8,
        (serial % BYTE_BOUND) as u8,
    ]
}
