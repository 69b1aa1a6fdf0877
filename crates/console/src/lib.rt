// The body of the program: commands from a reader, their listing to a writer, in bounded memory.
#![tactic(auto)]

mod ending;

ghost use Rattle.std.specs.Prelude.{◌*◌, ◌+◌, ◌-◌, ◌<◌, ◌≤◌, length, ◌≡◌, IfErr, IfOk, IfSome, None, OnErr, OnOk};
ghost use Rattle.lists.specs.Segments.{segment};
ghost use Rattle.command.specs.Commands.{command_size};
ghost use Rattle.lines.specs.Lines.{longest_line};
ghost use Rattle.listing.specs.Listing.{command_count};
ghost use Rattle.console.specs.Readings.{
  Advanced,
  ListsKnown,
  ListsRead,
  NoneRead,
  RanSome,
  ReadOne,
  ReadSome,
  first_position,
  gave,
  given_by,
  given_size,
  performed_size,
  position_behind,
  standing,
};

pub use ending::Failure;
use std::io;
use std::io::{Read, Write};

// How many commands are read at a time, at most.
const COMMANDS: usize = 1024;

const INPUT_SIZE: usize = COMMANDS * command::SIZE;

const OUTPUT_SIZE: usize = COMMANDS * listing::LONGEST_LINE;

// Where the program is in its input: the number of the next command, and how many of its bytes wait at the start of the
// input buffer.
#[derive(Clone, Copy)]
struct Position {
    number: u64,
    waiting: usize,
}

// What a reading leads to: how many bytes of lines were put into the output buffer, and the next position, if the program
// reads on.
#[derive(Clone, Copy)]
struct Step {
    put: usize,
    next: Option<Position>,
}

// The position before the first reading.
fn first_position() -> Position
    ensures { result ≡ first_position }
{
    Position {
        number: 1,
        waiting: 0,
    }
}

// How many of the bytes held are performed: those of whole commands, or all at the end of the input.
// `last` is a fact of the reading, which the definitions `performed_size` and `position_behind` take too: a closure is no plainer.
fn performed_size(held: usize, last: bool) -> usize
    ensures { result ≡ performed_size held last }
{
    if last {
        held
    } else {
        held - held % command::SIZE
    }
}

// The position behind these commands, where so many bytes wait. The program stops where the next number would pass 64
// bits.
#[tactic(auto, unfolding(crate::specs::Readings::position_behind))]
fn position_behind(number: u64, commands: usize, waiting: usize, last: bool) -> Option<Position>
    ensures { result ≡ position_behind number commands waiting last }
{
    if last {
        return None;
    }
    let number = number.checked_add(commands as u64)?;
    Some(Position { number, waiting })
}

// Performs a reading, which stands in the input buffer behind the bytes that wait, and puts its lines into the output
// buffer. The bytes of a command that it cuts wait at the start of the input buffer.
#[tactic(auto, using(crate::proofs::Buffers::performed_le))]
fn perform(image: &mut [u8], at: Position, got: usize, input: &mut [u8], out: &mut [u8]) -> Step
    requires got_in_bounds { at.waiting + got ≤ length input.old }
    requires room_for_lines { command_count input.old * longest_line command_size ≤ length out.old }
    ensures { Advanced (standing at input.old image.old)
        (gave (segment input.old at.waiting got)) out.old result out.new
        input.new image.new
        × (result.put ≤ length out.old)
        × IfSome result.next (λ next. next.waiting < command_size) }
{
    let held = at.waiting + got;
    let end = performed_size(held, got == 0);
    let put = listing::run(image, at.number, &input[..end], out);
    input.copy_within(end..held, 0);
    let next = position_behind(at.number, end / command::SIZE, held - end, got == 0);
    Step { put, next }
}

// Performs what a read gave, by the answer to it. One that failed performs nothing: the rest of a cut command may follow,
// so that it is not a short one.
fn advance(
    image: &mut [u8],
    at: Position,
    got: io::Result<usize>,
    input: &mut [u8],
    out: &mut [u8],
) -> Step
    requires waits_for_rest { at.waiting < command_size }
    requires got_in_bounds { at.waiting + given_size got ≤ length input.old }
    requires room_for_lines { command_count input.old * longest_line command_size ≤ length out.old }
    ensures { Advanced (standing at input.old image.old)
        (given_by got at.waiting input.old) out.old result out.new input.new
        image.new
        × (result.put ≤ length out.old)
        × IfSome result.next (λ next. next.waiting < command_size) }
{
    match got {
        Ok(size) => perform(image, at, size, input, out),
        Err(_) => Step { put: 0, next: None },
    }
}

// Reads once, performs what was read and writes its lines: the next position. Where the read or the write fails, the
// program goes on no more.
fn read_on<R: Read, W: Write>(
    image: &mut [u8],
    at: Position,
    reader: &mut R,
    writer: &mut W,
    input: &mut [u8],
    out: &mut [u8],
) -> Result<Option<Position>, Failure>
    requires waits_for_rest { at.waiting < command_size }
    requires room_for_command { command_size ≤ length input.old }
    requires room_for_lines { command_count input.old * longest_line command_size ≤ length out.old }
    ensures one { IfOk result (λ next. ReadOne (standing at input.old image.old) next
        input.new image.new (R.remaining reader.old) (R.remaining reader.new)
        (W.contents writer.old) (W.contents writer.new)) }
    ensures waits { IfOk result (λ next. IfSome next (λ at. at.waiting < command_size)) }
    ensures some { OnErr result (ReadSome (standing at input.old image.old) None
        input.new image.new) }
    ensures failed { IfErr result (NoneRead image.old image.new (R.remaining reader.old)
        (R.remaining reader.new) (W.contents writer.old) (W.contents writer.new)) }
{
    let answer = reader.read(&mut input[at.waiting..]);
    let step = advance(image, at, answer, input, out);
    answer.map_err(Failure::Input)?;
    writer.write_all(&out[..step.put]).map_err(Failure::Output)?;
    Ok(step.next)
}

// Performs the commands that a reader gives on the image and writes their listing, to the end of the input or to a read
// or write that fails, with two buffers.
fn read_all<R: Read, W: Write>(
    image: &mut [u8],
    reader: &mut R,
    writer: &mut W,
    input: &mut [u8],
    out: &mut [u8],
) -> Result<(), Failure>
    requires room_for_command { command_size ≤ length input.old }
    requires room_for_lines { command_count input.old * longest_line command_size ≤ length out.old }
    ensures some { RanSome image.old image.new }
    ensures known { OnOk result (ListsKnown image.old image.new (R.remaining reader.old)
        (W.contents writer.old) (W.contents writer.new)) }
    ensures failed { IfErr result (ListsRead image.old image.new (R.remaining reader.old)
        (R.remaining reader.new) (W.contents writer.old) (W.contents writer.new)) }
{
    let mut next = Some(first_position());
    while let Some(at) = next {
        next = read_on(image, at, reader, writer, input, out)?;
    }
    Ok(())
}

// Performs the commands that a reader gives on the image, to the end of the input or to a read or write that fails, and
// writes their listing.
pub fn run<R: Read, W: Write>(
    image: &mut [u8],
    reader: &mut R,
    writer: &mut W,
) -> Result<(), Failure>
    ensures some { RanSome image.old image.new }
    ensures known { OnOk result (ListsKnown image.old image.new (R.remaining reader.old)
        (W.contents writer.old) (W.contents writer.new)) }
    ensures failed { IfErr result (ListsRead image.old image.new (R.remaining reader.old)
        (R.remaining reader.new) (W.contents writer.old) (W.contents writer.new)) }
{
    let mut input = [0u8; INPUT_SIZE];
    let mut out = [0u8; OUTPUT_SIZE];
    read_all(image, reader, writer, &mut input, &mut out)
}
