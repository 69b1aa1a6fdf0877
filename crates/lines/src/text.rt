// Text put into a lent buffer, in ASCII. Each function answers the index behind what it put.
ghost use Rattle.std.specs.Prelude.{◌∷◌, [], ◌≡◌, ◌*◌, ◌+◌, ◌<◌, ◌≤◌, length};
ghost use Rattle.lines.specs.Text.{Puts, decimal, glyph, hex_byte, hex_bytes};

// The digit for a number below 16.
fn glyph(digit: u8) -> u8
    requires { digit < 16 }
    ensures { result ≡ glyph digit }
{
    if digit < 10 {
        return b'0' + digit;
    }
    b'A' - 10 + digit
}

// One byte.
#[tactic(auto, using(crate::proofs::Puts::puts_byte))]
pub fn put_byte(out: &mut [u8], at: usize, byte: u8) -> usize
    requires { at < length out.old }
    ensures { Puts (byte ∷ []) out.old at result out.new }
{
    out[at] = byte;
    at + 1
}

// A word.
pub fn put_word(out: &mut [u8], at: usize, word: &[u8]) -> usize
    requires { at + length word.now ≤ length out.old }
    ensures { Puts word.now out.old at result out.new }
{
    image::write_at(out, at, word);
    at + word.len()
}

// A byte as two hexadecimal digits.
pub fn put_hex(out: &mut [u8], at: usize, byte: u8) -> usize
    requires { at + 2 ≤ length out.old }
    ensures { Puts (hex_byte byte) out.old at result out.new }
{
    let next = put_byte(out, at, glyph(byte / 16));
    put_byte(out, next, glyph(byte % 16))
}

// Bytes as hexadecimal digits, one after the other.
#[tactic(auto, using(crate::proofs::Puts::puts_none), unfolding(crate::specs::Text::hex_bytes))]
pub fn put_hexes(out: &mut [u8], at: usize, bytes: &[u8]) -> usize
    requires { at + 2 * length bytes.now ≤ length out.old }
    ensures { Puts (hex_bytes bytes.now) out.old at result out.new }
{
    let mut end = at;
    for &byte in bytes {
        end = put_hex(out, end, byte);
    }
    end
}

// A decimal number: the digits of n / 10, then the last.
// The library prints a number into a `Write` that may fail and answers no index, so `Puts` would need more code, not less.
#[tactic(auto, using(crate::proofs::Digits::decimal_more, crate::proofs::Digits::decimal_small, crate::proofs::Digits::length_small, crate::proofs::Digits::length_more))]
pub fn put_decimal(out: &mut [u8], at: usize, n: u64) -> usize
    requires { at + length (decimal n) ≤ length out.old }
    ensures { Puts (decimal n) out.old at result out.new }
{
    if n < 10 {
        return put_byte(out, at, glyph(n as u8));
    }
    let next = put_decimal(out, at, n / 10);
    put_byte(out, next, glyph((n % 10) as u8))
}
