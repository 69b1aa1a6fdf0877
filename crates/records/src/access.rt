// What every call on a record asks first: rows 1 to 5 and 7 of the refusal table, and the holders of its block.
ghost use Rattle.std.specs.Prelude.{◌≡◌, IfOk, Ok};
ghost use Rattle.refusals.specs.Refusals.{row_by, row_of};
ghost use Rattle.control.specs.Meaning.{meaning};
ghost use Rattle.cabinet_rules.specs.Delivery.{storable};
ghost use Rattle.promise.specs.Given.{Given};
ghost use Rattle.records.specs.Access.{LooksUp, early_rows, with_value};

use control::Control;
use image::{Rec, Tran};
use refusals::{Numbered, Refusal};
use trail::Holders;

// Records 0 to 511.
const RECORD_COUNT: usize = image::BLOCK_COUNT * image::SLOT_COUNT;

// New feeder drives read this value as a broken wire; store takes the values below it.
const BROKEN_WIRE: u16 = 65535;

// The number that is no row of the table.
const NO_ROW: u8 = 0;

// What a call on a record goes on with: the newest placement, by its number, and the holders of the record's block.
#[derive(Clone, Copy)]
pub struct Access {
    pub newest: usize,
    pub holders: Holders,
}

// Rows 3, 4 and 5.
fn check(image: &[u8], k: Control, tran: Tran, rec: Rec) -> Result<(), Refusal>
    requires { Given k image.now }
    ensures { row_of result ≡ early_rows (meaning k) tran.0 rec.0 }
{
    if rec.0 as usize >= RECORD_COUNT {
        return Err(Refusal::Range);
    }
    promise::rows::check_tran(image, k, tran)
}

// The record's rows and holders.
pub fn look_up(image: &[u8], tran: Tran, rec: Rec) -> Result<Access, Refusal>
    ensures { LooksUp image.now tran.0 rec.0 result }
{
    let k = control_form::read(image)?;
    check(image, k, tran, rec)?;
    let holders = trail::find(image, k, crate::slots::block_of(rec));
    if crate::slots::locked_out(image, holders, tran, rec) {
        return Err(Refusal::Locked);
    }
    Ok(Access {
        newest: (k.count - 1) as usize,
        holders: holders,
    })
}

// What a store goes on with, from what a get of the record does: a value out of range is one row more, 3, and the lowest
// number applies. The refusal is one of the table, or any number in its place, where 0 stands for no refusal.
pub fn with_value<T: Copy, E: Numbered>(found: Result<T, E>, value: u16) -> Result<T, E>
    ensures row { row_by E.numbered result ≡ with_value (storable value) (row_by E.numbered found) }
    ensures same { IfOk result (λ a. found ≡ Ok a) }
{
    if value < BROKEN_WIRE {
        return found;
    }
    match found {
        Ok(_) => Err(E::of(Refusal::Range)),
        Err(refusal) => {
            let row = refusal.number();
            if row != NO_ROW && row < Refusal::Range.number() {
                return Err(refusal);
            }
            Err(E::of(Refusal::Range))
        }
    }
}
