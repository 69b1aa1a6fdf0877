// begin, commit and rollback: a transaction opens, and ends in all held blocks.
#![tactic(auto)]

ghost use Rattle.std.specs.Prelude.{◌≡◌, ◌<◌, eqb};
ghost use Rattle.image.specs.Layout.{tran_bound};
ghost use Rattle.image.specs.Parts.{Whole};
ghost use Rattle.refusals.specs.Refusals.{row_of};
ghost use Rattle.slot.specs.Blocks.{in_set};
ghost use Rattle.method.specs.ControlPart.{closed};
ghost use Rattle.control.specs.Meaning.{Counted, meaning, put_control};
ghost use Rattle.promise.specs.Promise.{Done, asked};
ghost use Rattle.promise.specs.declared.Call.{Call};
ghost use Rattle.promise.specs.Laid.{laid};
ghost use Rattle.tables.specs.Tables.{end_writes, set_of};
ghost use Rattle.transactions.specs.Transactions.{begin_rows, end_call};

use control::Control;
use image::{CARD_COUNT, Card, Tran};
use promise::{Answer, rows};
use refusals::Refusal;

// The rows of begin from 3 on.
fn check_begin(k: Control, tran: Tran, home: Card) -> Result<(), Refusal>
    requires { Counted k }
    ensures { row_of result ≡ begin_rows (meaning k) tran.0 home.0 }
{
    if !rows::is_tran(tran) {
        return Err(Refusal::Range);
    }
    if home.0 as usize >= CARD_COUNT {
        return Err(Refusal::Range);
    }
    if k.stopped {
        return Err(Refusal::Stopped);
    }
    if k.is_open(tran) {
        return Err(Refusal::AlreadyOpen);
    }
    if !mask::has(k.newest_mask(), home) {
        return Err(Refusal::Card);
    }
    Ok(())
}

// Opens the transaction with its home, a card of the newest placement.
pub fn begin(image: &mut [u8], tran: Tran, home: Card) -> Result<Answer, Refusal>
    ensures { Done (asked (Call.Begin tran home)) image.old result image.new }
{
    let k = control_form::read(image)?;
    check_begin(k, tran, home)?;
    control::codec::write(image, k.begin(tran, home));
    Ok(Answer::Accepted)
}

// The transaction ends in the held blocks of the working cards, and then closes.
fn end_open(image: &mut [u8], k: Control, tran: Tran, take: bool)
    requires whole { Whole image.old }
    requires counted { Counted k }
    requires tran_nonzero { (0 < tran.0) × (tran.0 < tran_bound) }
    ensures { image.new
        ≡ put_control
        (laid (end_writes (meaning k).working take (in_set (set_of (λ x. eqb x tran.0))) image.old)
        image.old)
        (closed (meaning k) (λ x. eqb x tran.0)) }
{
    tables::end_held(image, k.working, take, tables::set_of(tran));
    control::codec::write(image, k.close(tran));
}

// Ends the transaction: its pending states are taken or dropped.
fn end(image: &mut [u8], tran: Tran, take: bool) -> Result<Answer, Refusal>
    ensures { Done (end_call take tran.0) image.old result image.new }
{
    let k = control_form::read(image)?;
    rows::check_tran(image, k, tran)?;
    end_open(image, k, tran, take);
    Ok(Answer::Accepted)
}

// What the transaction stored and deleted becomes the committed state, and the transaction closes.
pub fn commit(image: &mut [u8], tran: Tran) -> Result<Answer, Refusal>
    ensures { Done (asked (Call.Commit tran)) image.old result image.new }
{
    end(image, tran, true)
}

// What the transaction stored and deleted is dropped, and the transaction closes.
pub fn rollback(image: &mut [u8], tran: Tran) -> Result<Answer, Refusal>
    ensures { Done (asked (Call.Rollback tran)) image.old result image.new }
{
    end(image, tran, false)
}
