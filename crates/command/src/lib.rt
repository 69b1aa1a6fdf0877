// Commands: the five bytes that ask for a call, read and written, and the call that performs them.
#![tactic(auto)]

ghost use Rattle.std.specs.Prelude.{◌≡◌, false, true, length};
ghost use Rattle.refusals.specs.declared.Refusal.TheVariants.{Malformed as NotFormed};
ghost use Rattle.command.specs.Commands.{
  call_at,
  call_by,
  call_fields,
  command_at,
  command_size,
  encoded,
  fields_for,
  fields_given,
  fields_of,
  fields_within,
  formed,
  is_wide_move,
  is_writable,
  read_of,
  write_leaves,
  write_of,
};
ghost use Rattle.command.specs.Meaning.{block_for, call_for};
ghost use Rattle.command.specs.Operations.{operation_number};

pub mod codec;
mod operation;

use image::{Block, Card, Rec, Tran};
pub use operation::Operation;
use promise::Call;
use refusals::Refusal;

// The bytes of a command.
pub const SIZE: usize = 5;

// The numbers of the operations, for patterns, which take no cast.
pub const START: u8 = Operation::Start as u8;

pub const BEGIN: u8 = Operation::Begin as u8;

pub const GET: u8 = Operation::Get as u8;

pub const STORE: u8 = Operation::Store as u8;

pub const DELETE: u8 = Operation::Delete as u8;

pub const COMMIT: u8 = Operation::Commit as u8;

pub const ROLLBACK: u8 = Operation::Rollback as u8;

pub const FIT: u8 = Operation::Fit as u8;

pub const WITHDRAW: u8 = Operation::Withdraw as u8;

pub const PLACE: u8 = Operation::Place as u8;

pub const FAIL: u8 = Operation::Fail as u8;

pub const MOVE: u8 = Operation::Move as u8;

pub const SETTLE: u8 = Operation::Settle as u8;

pub const STATE: u8 = Operation::State as u8;

pub const LOAD: u8 = Operation::Load as u8;

// How many numbers four bits and eight bits have.
const FOUR_BITS: u8 = 16;

const EIGHT_BITS: u16 = 256;

// The greatest number of each field: 4 bits, 4 bits, 12 bits, 16 bits; a mask has 8.
const MOST_TRAN: u8 = 15;

const MOST_CARD: u8 = 15;

const MOST_NUMBER: u16 = 4095;

const MOST_VALUE: u16 = 65535;

const MOST_MASK: u16 = 255;

// The greatest number that a `Block` can have.
const MOST_BLOCK: u16 = 255;

// What a command asks for: a call, or a move of a number that no block can have: its field has 12 bits, a block 8.
#[derive(Clone, Copy)]
pub enum Command {
    Of(Call),
    WideMove(Card, u16),
}

// Bytes that are no command, or a command that five bytes do not hold.
#[derive(Clone, Copy, Debug, PartialEq, Eq)]
pub struct Malformed;

// The refusal of bytes that are no command.
impl From<Malformed> for Refusal {
    ghost from_gives = { λ _ r. r ≡ NotFormed };

    fn from(_malformed: Malformed) -> Refusal {
        Refusal::Malformed
    }
}

// The fields of a command. The number is a record's or a block's, the value may be a mask. The operation stays a number
// here: callers in C lend any byte (`nolpigat_read_command`, `nolpigat_write_command`).
#[derive(Clone, Copy)]
pub struct Fields {
    pub operation: u8,
    pub tran: u8,
    pub card: u8,
    pub number: u16,
    pub value: u16,
}

// The fields of five bytes, most significant bit first.
fn decode(a: u8, b: u8, c: u8, d: u8, e: u8) -> Fields
    ensures { result ≡ fields_of a b c d e }
{
    Fields {
        operation: a / FOUR_BITS,
        tran: a % FOUR_BITS,
        card: b / FOUR_BITS,
        number: (b % FOUR_BITS) as u16 * EIGHT_BITS + c as u16,
        value: d as u16 * EIGHT_BITS + e as u16,
    }
}

// Whether each field is at most its limit. Four tests and no `&&`, which was tried and is slower: 17 instructions a command.
#[tactic(auto, unfolding(crate::specs::Commands::fields_within))]
fn is_within(f: Fields, tran: u8, card: u8, number: u16, value: u16) -> bool
    ensures { result ≡ fields_within tran card number value f }
{
    if f.tran > tran {
        return false;
    }
    if f.card > card {
        return false;
    }
    if f.number > number {
        return false;
    }
    f.value <= value
}

// Whether the operation is known, the fields that it lacks are zero and the others are not too wide. The nibble is matched
// itself, so that operations of one form are a range.
#[tactic(auto, unfolding(crate::specs::Commands::formed))]
fn is_formed(f: Fields) -> bool
    ensures { result ≡ formed f }
{
    match f.operation {
        START | PLACE => is_within(f, 0, 0, 0, MOST_MASK),
        BEGIN => is_within(f, MOST_TRAN, MOST_CARD, 0, 0),
        GET | DELETE => is_within(f, MOST_TRAN, 0, MOST_NUMBER, 0),
        STORE => is_within(f, MOST_TRAN, 0, MOST_NUMBER, MOST_VALUE),
        COMMIT..=ROLLBACK => is_within(f, MOST_TRAN, 0, 0, 0),
        FIT..=WITHDRAW => is_within(f, 0, MOST_CARD, 0, 0),
        FAIL | LOAD => is_within(f, 0, MOST_CARD, 0, 0),
        MOVE => is_within(f, 0, MOST_CARD, MOST_NUMBER, 0),
        SETTLE..=STATE => is_within(f, 0, 0, 0, 0),
        _ => false,
    }
}

// Whether the operation is move and the number one that no block can have.
#[tactic(auto, unfolding(crate::specs::Commands::is_wide_move))]
fn is_wide_move(f: Fields) -> bool
    ensures { result ≡ is_wide_move f }
{
    f.operation == Operation::Move as u8 && f.number > MOST_BLOCK
}

// The call of these fields, whose operation it is.
#[tactic(auto, unfolding(crate::specs::Commands::formed, crate::specs::Commands::fields_within, crate::specs::Commands::is_wide_move))]
fn call_by(operation: Operation, f: Fields) -> Call
    requires is_operation { operation_number operation ≡ f.operation }
    requires is_formed { formed f ≡ true }
    requires is_narrow { is_wide_move f ≡ false }
    ensures { result ≡ call_by (operation_number operation) f }
{
    match operation {
        Operation::Start => Call::Start(f.value as u8),
        Operation::Begin => Call::Begin(Tran(f.tran), Card(f.card)),
        Operation::Get => Call::Get(Tran(f.tran), Rec(f.number)),
        Operation::Store => Call::Store(Tran(f.tran), Rec(f.number), f.value),
        Operation::Delete => Call::Delete(Tran(f.tran), Rec(f.number)),
        Operation::Commit => Call::Commit(Tran(f.tran)),
        Operation::Rollback => Call::Rollback(Tran(f.tran)),
        Operation::Fit => Call::Fit(Card(f.card)),
        Operation::Withdraw => Call::Withdraw(Card(f.card)),
        Operation::Place => Call::Place(f.value as u8),
        Operation::Fail => Call::Fail(Card(f.card)),
        Operation::Move => Call::Move(Card(f.card), Block(f.number as u8)),
        Operation::Settle => Call::Settle,
        Operation::State => Call::State,
        Operation::Load => Call::Load(Card(f.card)),
    }
}

// The call of a known operation.
#[tactic(auto, unfolding(crate::specs::Commands::formed, crate::specs::Commands::call_at))]
fn call_at(f: Fields) -> Call
    requires is_formed { formed f ≡ true }
    requires is_narrow { is_wide_move f ≡ false }
    ensures { result ≡ call_at f }
{
    call_by(Operation::try_from(f.operation).unwrap(), f)
}

// The command of a known operation.
#[tactic(auto, unfolding(crate::specs::Commands::command_at))]
fn command_at(f: Fields) -> Command
    requires { formed f ≡ true }
    ensures { result ≡ command_at f }
{
    if is_wide_move(f) {
        return Command::WideMove(Card(f.card), f.number);
    }
    Command::Of(call_at(f))
}

// What the bytes ask for.
#[tactic(auto, unfolding(crate::specs::Commands::read_of, crate::specs::Commands::shown_fields, crate::specs::Commands::well_formed))]
pub fn read(bytes: &[u8]) -> Result<Command, Malformed>
    ensures { result ≡ read_of bytes.now }
{
    let f = codec::read(bytes)?;
    Ok(command_at(f))
}

// A command's fields, zero where the operation lacks them.
fn given(operation: Operation, tran: u8, card: u8, number: u16, value: u16) -> Fields
    ensures { result ≡ fields_given (operation_number operation) tran card number value }
{
    Fields {
        operation: operation as u8,
        tran,
        card,
        number,
        value,
    }
}

// The fields of a call. Its block is a byte.
#[tactic(auto, unfolding(crate::specs::Commands::call_fields, crate::specs::Commands::is_wide_move))]
fn call_fields(call: Call) -> Fields
    ensures { (result ≡ call_fields call) × (is_wide_move result ≡ false) }
{
    match call {
        Call::Start(mask) => given(Operation::Start, 0, 0, 0, mask as u16),
        Call::Begin(tran, home) => given(Operation::Begin, tran.0, home.0, 0, 0),
        Call::Get(tran, rec) => given(Operation::Get, tran.0, 0, rec.0, 0),
        Call::Store(tran, rec, value) => given(Operation::Store, tran.0, 0, rec.0, value),
        Call::Delete(tran, rec) => given(Operation::Delete, tran.0, 0, rec.0, 0),
        Call::Commit(tran) => given(Operation::Commit, tran.0, 0, 0, 0),
        Call::Rollback(tran) => given(Operation::Rollback, tran.0, 0, 0, 0),
        Call::Fit(card) => given(Operation::Fit, 0, card.0, 0, 0),
        Call::Withdraw(card) => given(Operation::Withdraw, 0, card.0, 0, 0),
        Call::Place(mask) => given(Operation::Place, 0, 0, 0, mask as u16),
        Call::Fail(card) => given(Operation::Fail, 0, card.0, 0, 0),
        Call::Move(card, block) => given(Operation::Move, 0, card.0, block.0 as u16, 0),
        Call::Settle => given(Operation::Settle, 0, 0, 0, 0),
        Call::State => given(Operation::State, 0, 0, 0, 0),
        Call::Load(card) => given(Operation::Load, 0, card.0, 0, 0),
    }
}

// The fields of a command.
fn fields_for(command: Command) -> Fields
    ensures { result ≡ fields_for command }
{
    match command {
        Command::Of(call) => call_fields(call),
        Command::WideMove(card, number) => given(Operation::Move, 0, card.0, number, 0),
    }
}

// Whether the command can be written. A wide move of a number that a block can have is not of its form.
#[tactic(auto, unfolding(crate::specs::Commands::is_writable))]
fn is_writable(command: Command) -> bool
    ensures { result ≡ is_writable command }
{
    match command {
        Command::Of(call) => is_formed(call_fields(call)),
        Command::WideMove(_, number) => number > MOST_BLOCK && is_formed(fields_for(command)),
    }
}

// Writes the fields into five lent bytes.
#[tactic(auto, using(crate::proofs::Forms::formed_known, crate::proofs::Forms::formed_wide))]
fn encode(bytes: &mut [u8], f: Fields)
    requires bytes_len { length bytes.old ≡ command_size }
    requires is_formed { formed f ≡ true }
    ensures { bytes.new ≡ encoded f }
{
    bytes.copy_from_slice(&[
        f.operation * FOUR_BITS + f.tran,
        f.card * FOUR_BITS + (f.number / EIGHT_BITS) as u8,
        (f.number % EIGHT_BITS) as u8,
        (f.value / EIGHT_BITS) as u8,
        (f.value % EIGHT_BITS) as u8,
    ]);
}

// Writes a command. Refused, the bytes stay as found.
#[tactic(auto, unfolding(crate::specs::Commands::write_of, crate::specs::Commands::bytes_for, crate::specs::Commands::is_writable, crate::specs::Commands::write_fields, crate::specs::Commands::fields_leave))]
pub fn write(bytes: &mut [u8], command: Command) -> Result<(), Malformed>
    ensures { (result ≡ write_of bytes.old command)
        × (bytes.new ≡ write_leaves bytes.old command) }
{
    if !is_writable(command) {
        return Err(Malformed);
    }
    codec::write(bytes, fields_for(command))
}

// The block of the call that performs a move of this number.
fn block_for(number: u16) -> Block
    ensures { result.0 ≡ block_for number }
{
    if number <= MOST_BLOCK {
        return Block(number as u8);
    }
    Block(MOST_BLOCK as u8)
}

// The call that performs a command. A number that no block can have is out of range, and so is block 255: a move of
// either answers and leaves the same.
pub fn call_for(command: Command) -> Call
    ensures { result ≡ call_for command }
{
    match command {
        Command::Of(call) => call,
        Command::WideMove(card, number) => Call::Move(card, block_for(number)),
    }
}
