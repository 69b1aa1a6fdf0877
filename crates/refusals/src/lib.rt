// The refusals of the calls: the rows of the refusal table, as the errors of what the calls answer.
#![tactic(auto)]

ghost use Rattle.std.specs.Prelude.{◌≡◌};
ghost use Rattle.refusals.specs.Refusals.{number};

mod standing;

pub use standing::Numbered;

// Why a call is refused, each by its number in the table (RULES, "Refusals").
#[derive(Clone, Copy, Debug, PartialEq, Eq)]
pub enum Refusal {
    // An image has another length than the call takes.
    Length = 1,
    // The control form is broken.
    ControlForm = 2,
    // A number is outside its range.
    Range = 3,
    // The store has stopped.
    Stopped = 4,
    // The transaction is not open.
    NotOpen = 5,
    // The transaction to begin is open already.
    AlreadyOpen = 6,
    // A copy of the record is locked by another number.
    Locked = 7,
    // The card is not as the call needs it.
    Card = 8,
    // These cards cannot be a placement.
    Placement = 9,
    // Three or more placements are active.
    Active = 10,
    // The card does not hold the block.
    NotHeld = 11,
    // The copy that is to move has a locked record.
    CopyLocked = 12,
    // A block still has to move.
    Unsettled = 13,
    // The card is the home of an open transaction.
    Home = 14,
    // The command is malformed.
    Malformed = 15,
    // The lent move list is shorter than needed.
    List = 16,
    // A block is in no line of the table.
    Gap = 17,
    // A block is in two lines of the table.
    Overlap = 18,
    // The card to return is stale.
    Stale = 19,
    // No serials are left for a placement.
    Serials = 20,
}

impl Refusal {
    // Its number in the table.
    pub fn number(self) -> u8
        ensures { result ≡ number self }
    {
        self as u8
    }
}
