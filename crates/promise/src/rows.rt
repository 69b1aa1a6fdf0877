// Rows of the refusal table that several calls ask.
ghost use Rattle.std.specs.Prelude.{◌≡◌};
ghost use Rattle.refusals.specs.Refusals.{row_of};
ghost use Rattle.control.specs.Meaning.{meaning};
ghost use Rattle.cabinet_rules.specs.Cabinet.{tran_ok};
ghost use Rattle.promise.specs.Given.{Given};
ghost use Rattle.promise.specs.Rows.{card_rows, tran_rows};

use control::Control;
use image::{Card, TRAN_COUNT, Tran};
use mask::Placement;
use refusals::Refusal;

// Rows 3, 4 and 8 of a call on a working card.
pub fn check_card(k: Control, card: Card) -> Result<(), Refusal>
    ensures { row_of result ≡ card_rows (meaning k) card.0 }
{
    if card.0 >= Placement::MOST_CARDS {
        return Err(Refusal::Range);
    }
    if k.stopped {
        return Err(Refusal::Stopped);
    }
    if !mask::has(k.working, card) {
        return Err(Refusal::Card);
    }
    Ok(())
}

// Whether the number is a transaction's.
pub fn is_tran(tran: Tran) -> bool
    ensures { result ≡ tran_ok tran.0 }
{
    if tran.0 == 0 {
        return false;
    }
    tran.0 as usize <= TRAN_COUNT
}

// Rows 3, 4 and 5 of a call of an open transaction.
pub fn check_tran(image: &[u8], k: Control, tran: Tran) -> Result<(), Refusal>
    requires { Given k image.now }
    ensures { row_of result ≡ tran_rows (meaning k) tran.0 }
{
    if !is_tran(tran) {
        return Err(Refusal::Range);
    }
    if k.stopped {
        return Err(Refusal::Stopped);
    }
    if !control::codec::is_open_at(image, tran) {
        return Err(Refusal::NotOpen);
    }
    Ok(())
}
