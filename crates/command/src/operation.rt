// The known operations, by their numbers.
ghost use Rattle.command.specs.Operations.{NumberOf};

use crate::Malformed;

// What a command does, each at its number from 0 on.
#[derive(Clone, Copy, Debug, PartialEq, Eq)]
pub enum Operation {
    Start,
    Begin,
    Get,
    Store,
    Delete,
    Commit,
    Rollback,
    Fit,
    Withdraw,
    Place,
    Fail,
    Move,
    Settle,
    State,
    Load,
}

impl TryFrom<u8> for Operation {
    type Error = Malformed;

    ghost try_from_gives = { NumberOf };

    fn try_from(number: u8) -> Result<Operation, Malformed> {
        match number {
            0 => Ok(Operation::Start),
            1 => Ok(Operation::Begin),
            2 => Ok(Operation::Get),
            3 => Ok(Operation::Store),
            4 => Ok(Operation::Delete),
            5 => Ok(Operation::Commit),
            6 => Ok(Operation::Rollback),
            7 => Ok(Operation::Fit),
            8 => Ok(Operation::Withdraw),
            9 => Ok(Operation::Place),
            10 => Ok(Operation::Fail),
            11 => Ok(Operation::Move),
            12 => Ok(Operation::Settle),
            13 => Ok(Operation::State),
            14 => Ok(Operation::Load),
            _ => Err(Malformed),
        }
    }
}
