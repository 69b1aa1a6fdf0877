// Answers as numbers of 32 bits, for callers in other languages.
#![tactic(auto)]

ghost use Rattle.std.specs.Prelude.{◌≡◌};
ghost use Rattle.promise.specs.Promise.{said, shown_by, shown_filled_by};
ghost use Rattle.move_list.specs.Promise.{shown_list_by};
ghost use Rattle.queries.specs.Queries.{shown_told_by};
ghost use Rattle.codes.specs.Codes.{code_of, coded, number_of_kind};
ghost use Rattle.codes.specs.CommandCodes.{form_code};
ghost use Rattle.codes.specs.FilledCodes.{filled_code};
ghost use Rattle.codes.specs.ListCodes.{list_code};
ghost use Rattle.codes.specs.ToldCodes.{told_code};
ghost use Rattle.codes.specs.declared.Kind.TheVariants.{Refused};

use promise::Answer;
use refusals::{Numbered, Refusal};

// Kinds of answers, each by its number at the C boundary, where `Done` is OK and `Nothing` is NONE.
#[derive(Clone, Copy, Debug, PartialEq, Eq)]
enum Kind {
    Done = 0,
    Value = 1,
    Absent = 2,
    Placed = 3,
    Unplaced = 4,
    Stopped = 5,
    Copies = 6,
    Retired = 7,
    Protected = 8,
    Unprotected = 9,
    Load = 10,
    Listed = 11,
    Nothing = 12,
    Number = 13,
    Written = 14,
    Refused = 15,
}

// Numbers of 16 bits stand below the kind.
const NUMBER_RANGE: u32 = 65536;

// The code of a kind and a number.
fn pair(kind: Kind, number: u16) -> u32
    ensures { result ≡ coded (number_of_kind kind) number }
{
    kind as u32 * NUMBER_RANGE + number as u32
}

// The code of a refusal, or of a number in its place.
fn refused<E: Numbered>(refusal: E) -> u32
    ensures { result ≡ coded (number_of_kind Refused) (E.numbered refusal) }
{
    pair(Kind::Refused, refusal.number() as u16)
}

// The code of an answer that is no refusal.
#[tactic(auto, unfolding(crate::specs::Codes::kind_of, crate::specs::Codes::answer_number))]
fn accepted(answer: Answer) -> u32
    ensures { result ≡ code_of (said answer) }
{
    match answer {
        Answer::Accepted => pair(Kind::Done, 0),
        Answer::Value(n) => pair(Kind::Value, n),
        Answer::Absent => pair(Kind::Absent, 0),
        Answer::Placed(mask) => pair(Kind::Placed, mask as u16),
        Answer::Unplaced => pair(Kind::Unplaced, 0),
        Answer::Stopped => pair(Kind::Stopped, 0),
        Answer::Copied(n) => pair(Kind::Copies, n as u16),
        Answer::Retired(n) => pair(Kind::Retired, n as u16),
        Answer::Protected => pair(Kind::Protected, 0),
        Answer::Unprotected => pair(Kind::Unprotected, 0),
        Answer::Loaded(n) => pair(Kind::Load, n),
    }
}

// The code of an answer: its refusal is one of the table, or any number in its place. So too below.
#[tactic(auto, unfolding(crate::specs::Codes::kind_of, crate::specs::Codes::answer_number))]
pub fn code<E: Numbered>(answer: Result<Answer, E>) -> u32
    ensures { result ≡ code_of (shown_by E.numbered answer) }
{
    match answer {
        Ok(said) => accepted(said),
        Err(refusal) => refused(refusal),
    }
}

// The code of an answer of the move list.
#[tactic(auto, unfolding(crate::specs::ListCodes::list_kind, crate::specs::ListCodes::list_number))]
pub fn list_code<E: Numbered>(listed: Result<Option<u16>, E>) -> u32
    ensures { result ≡ list_code (shown_list_by E.numbered listed) }
{
    match listed {
        Ok(Some(n)) => pair(Kind::Listed, n),
        Ok(None) => pair(Kind::Nothing, 0),
        Err(refusal) => refused(refusal),
    }
}

// The code of what a question is told. Beside the one above it has another kind and 8 bits; one function over both would
// take both as parameters, and is no plainer.
#[tactic(auto, unfolding(crate::specs::ToldCodes::told_kind, crate::specs::ToldCodes::told_number))]
pub fn told_code<E: Numbered>(told: Result<Option<u8>, E>) -> u32
    ensures { result ≡ told_code (shown_told_by E.numbered told) }
{
    match told {
        Ok(Some(n)) => pair(Kind::Number, n as u16),
        Ok(None) => pair(Kind::Nothing, 0),
        Err(refusal) => refused(refusal),
    }
}

// The code of an answer of a call that fills lent bytes.
#[tactic(auto, unfolding(crate::specs::FilledCodes::filled_kind, crate::specs::FilledCodes::filled_number))]
pub fn filled_code<E: Numbered>(filled: Result<u16, E>) -> u32
    ensures { result ≡ filled_code (shown_filled_by E.numbered filled) }
{
    match filled {
        Ok(n) => pair(Kind::Written, n),
        Err(refusal) => refused(refusal),
    }
}

// The code of whether a command is formed.
#[tactic(auto, unfolding(crate::specs::CommandCodes::form_code, crate::specs::Codes::kind_of, crate::specs::Codes::answer_number))]
pub fn form_code(formed: bool) -> u32
    ensures { result ≡ form_code formed }
{
    if formed {
        return pair(Kind::Done, 0);
    }
    refused(Refusal::Malformed)
}
