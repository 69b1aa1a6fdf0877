// Questions about the store that are none of its calls: they change nothing. Those of the control part are answered of a
// stopped store too.
#![tactic(auto)]

ghost use Rattle.std.specs.Prelude.{◌≡◌};
ghost use Rattle.control.specs.Meaning.{Counted, meaning};
ghost use Rattle.queries.specs.declared.Query.TheVariants.{Home, Placement as Query-as-Placement};
ghost use Rattle.queries.specs.Queries.{free_in, holders_on, source_on, shown_told, told_of, told_on};

use control::codec::{FIELD, FIELD_BOUND, OPEN};
use control::{Control, MASK_COUNT};
use image::{Rec, TRAN_COUNT, Tran};
use refusals::Refusal;

// Transactions are below this.
const TRAN_BOUND: u8 = TRAN_COUNT as u8 + 1;

// What can be asked of the control part. Active placements are numbered from 0, the oldest first.
#[derive(Clone, Copy)]
pub enum Query {
    Stopped,
    PlacementCount,
    Placement(u8),
    Working,
    Failed,
    Home(Tran),
    FreeTransaction,
}

// The mask of active placement i.
fn placement(k: Control, i: u8) -> Result<Option<u8>, Refusal>
    requires { Counted k }
    ensures { shown_told result ≡ told_of (Query-as-Placement i) (meaning k) }
{
    let at = i as usize;
    if at >= MASK_COUNT {
        return Err(Refusal::Range);
    }
    if i >= k.count {
        return Ok(None);
    }
    Ok(Some(k.masks[at]))
}

// The home card of a transaction.
fn home(k: Control, tran: Tran) -> Result<Option<u8>, Refusal>
    ensures { shown_told result ≡ told_of (Home tran) (meaning k) }
{
    if !promise::rows::is_tran(tran) {
        return Err(Refusal::Range);
    }
    let at = (tran.0 - 1) as usize;
    let b = k.homes[at];
    if b >= OPEN {
        return Ok(Some(b / FIELD % FIELD_BOUND));
    }
    Ok(None)
}

// The lowest transaction that is not open, or 0: callers in C get the number as it is (`nolpigat_free_transaction`).
fn free_transaction(k: Control) -> u8
    ensures { result ≡ free_in (meaning k) }
{
    for t in 1..TRAN_BOUND {
        if !k.is_open(Tran(t)) {
            return t;
        }
    }
    0
}

// What the control part tells.
fn tell(k: Control, query: Query) -> Result<Option<u8>, Refusal>
    requires { Counted k }
    ensures { shown_told result ≡ told_of query (meaning k) }
{
    match query {
        Query::Stopped => Ok(Some(k.stopped as u8)),
        Query::PlacementCount => Ok(Some(k.count)),
        Query::Placement(i) => placement(k, i),
        Query::Working => Ok(Some(k.working)),
        Query::Failed => Ok(Some(k.failed)),
        Query::Home(tran) => home(k, tran),
        Query::FreeTransaction => Ok(Some(free_transaction(k))),
    }
}

// What an image tells of its control part: refused with 1, 2 and 3 alone.
pub fn ask(image: &[u8], query: Query) -> Result<Option<u8>, Refusal>
    ensures { shown_told result ≡ told_on query image.now }
{
    tell(control_form::read(image)?, query)
}

// The card that a get of the record by the transaction reads: refused as that get is.
pub fn source(image: &[u8], tran: Tran, rec: Rec) -> Result<Option<u8>, Refusal>
    ensures { shown_told result ≡ source_on tran.0 rec.0 image.now }
{
    let found = records::access::look_up(image, tran, rec)?;
    match found.holders.first {
        Some(card) => Ok(Some(card.0)),
        None => Ok(None),
    }
}

// How many cards hold the record's block: refused as a get of the record by the transaction is.
pub fn holders(image: &[u8], tran: Tran, rec: Rec) -> Result<Option<u8>, Refusal>
    ensures { shown_told result ≡ holders_on tran.0 rec.0 image.now }
{
    let found = records::access::look_up(image, tran, rec)?;
    Ok(Some(mask::members(found.holders.cards) as u8))
}
