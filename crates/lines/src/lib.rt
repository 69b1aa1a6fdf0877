// One line of the listing: its number, the digits of its command, and the answer in words.
#![tactic(auto)]

mod text;

ghost use Rattle.std.specs.Prelude.{◌+◌, ◌≤◌, ◌++◌, ◌≡◌, length};
ghost use Rattle.promise.specs.Promise.{shown_by};
ghost use Rattle.lines.specs.Text.{Puts, decimal, hex_byte, text};
ghost use Rattle.lines.specs.Lines.{has_room, line, line_head, line_in, longest_answer, longest_line, words, words_in};

use crate::text::{put_byte, put_decimal, put_hex, put_hexes, put_word};
use promise::Answer;
use refusals::Numbered;

// Digits of the greatest line number and letters of the longest answer; with two spaces and a newline, all of a line
// but its command.
const LONGEST_NUMBER: usize = 20;

pub const LONGEST_ANSWER: usize = 11;

pub const LONGEST_REST: usize = LONGEST_NUMBER + LONGEST_ANSWER + 3;

// Whether any line for this command fits into the buffer.
#[tactic(auto, unfolding(crate::specs::Lines::has_room))]
pub fn has_room(out: &[u8], command: &[u8]) -> bool
    ensures { result ≡ has_room out.now command.now }
{
    LONGEST_REST <= out.len() && command.len() <= (out.len() - LONGEST_REST) / 2
}

// A word and a decimal number.
fn put_count(out: &mut [u8], at: usize, word: &[u8], n: u16) -> usize
    requires { at + length word.now + length (decimal n) ≤ length out.old }
    ensures { Puts (word.now ++ decimal n) out.old at result out.new }
{
    let next = put_word(out, at, word);
    put_decimal(out, next, n as u64)
}

// A placement's mask.
fn put_mask(out: &mut [u8], at: usize, mask: u8) -> usize
    requires { at + longest_answer ≤ length out.old }
    ensures { Puts (text "placed " ++ hex_byte mask) out.old at result out.new }
{
    let next = put_word(out, at, b"placed ");
    put_hex(out, next, mask)
}

// An answer in words: its refusal is one of the table, or any number in its place. So too below.
#[tactic(auto, using(crate::proofs::Digits::length_16, crate::proofs::Digits::length_8, crate::proofs::Lines::placed_words), unfolding(crate::specs::Lines::words))]
fn put_answer<E: Numbered>(out: &mut [u8], at: usize, answer: Result<Answer, E>) -> usize
    requires { at + longest_answer ≤ length out.old }
    ensures { Puts (words (shown_by E.numbered answer)) out.old at result out.new
        × (result ≤ at + longest_answer) }
{
    match answer {
        Ok(Answer::Accepted) => put_word(out, at, b"ok"),
        Ok(Answer::Value(n)) => put_count(out, at, b"value ", n),
        Ok(Answer::Absent) => put_word(out, at, b"absent"),
        Ok(Answer::Placed(mask)) => put_mask(out, at, mask),
        Ok(Answer::Unplaced) => put_word(out, at, b"unplaced"),
        Ok(Answer::Stopped) => put_word(out, at, b"stopped"),
        Ok(Answer::Copied(n)) => put_count(out, at, b"copies ", n as u16),
        Ok(Answer::Retired(n)) => put_count(out, at, b"retired ", n as u16),
        Ok(Answer::Protected) => put_word(out, at, b"protected"),
        Ok(Answer::Unprotected) => put_word(out, at, b"unprotected"),
        Ok(Answer::Loaded(n)) => put_count(out, at, b"load ", n),
        Err(refusal) => put_count(out, at, b"refused ", refusal.number() as u16),
    }
}

// Puts the words of an answer at the start of the buffer: the number of bytes put. Where there is no room for
// the longest answer nothing is put, and the answer is 0: it stays a number by its public clause (`words_in`).
#[tactic(auto, using(crate::proofs::Puts::puts_none), unfolding(crate::specs::Lines::words_in))]
pub fn put_words<E: Numbered>(out: &mut [u8], answer: Result<Answer, E>) -> usize
    ensures { Puts (words_in out.old (shown_by E.numbered answer)) out.old 0 result out.new
        × (result ≤ length out.old) }
{
    if out.len() < LONGEST_ANSWER {
        return 0;
    }
    put_answer(out, 0, answer)
}

// The number and the digits of a line, with a space behind each.
#[tactic(auto, using(crate::proofs::Digits::length_64, crate::proofs::Digits::hex_length))]
fn put_head(out: &mut [u8], number: u64, command: &[u8]) -> usize
    requires { longest_line (length command.now) ≤ length out.old }
    ensures { Puts (line_head number command.now) out.old 0 result out.new }
{
    let behind_number = put_decimal(out, 0, number);
    let at = put_byte(out, behind_number, b' ');
    let behind_digits = put_hexes(out, at, command);
    put_byte(out, behind_digits, b' ')
}

// A line at the start of the buffer, which has room for it.
#[tactic(auto, using(crate::proofs::Lines::head_length), unfolding(crate::specs::Lines::line))]
fn put_whole_line<E: Numbered>(
    out: &mut [u8],
    number: u64,
    command: &[u8],
    answer: Result<Answer, E>,
) -> usize
    requires { longest_line (length command.now) ≤ length out.old }
    ensures { Puts (line number command.now (shown_by E.numbered answer)) out.old 0 result out.new
        × (result ≤ longest_line (length command.now)) }
{
    let at = put_head(out, number, command);
    let behind_answer = put_answer(out, at, answer);
    put_byte(out, behind_answer, b'\n')
}

// Puts a line at the start of the buffer: the number of bytes put. Where there is no room for the longest line of this
// command nothing is put, and the answer is 0: it stays a number by its public clause (`line_in`).
#[tactic(auto, using(crate::proofs::Puts::puts_none), unfolding(crate::specs::Lines::line_in, crate::specs::Lines::has_room))]
pub fn put_line<E: Numbered>(
    out: &mut [u8],
    number: u64,
    command: &[u8],
    answer: Result<Answer, E>,
) -> usize
    ensures { Puts (line_in out.old number command.now (shown_by E.numbered answer)) out.old 0 result
        out.new
        × (result ≤ longest_line (length command.now)) }
{
    if !has_room(out, command) {
        return 0;
    }
    put_whole_line(out, number, command, answer)
}
