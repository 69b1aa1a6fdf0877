// get, store and delete: the calls on one record.
#![tactic(auto)]

ghost use Rattle.promise.specs.Promise.{Done, asked};
ghost use Rattle.promise.specs.declared.Call.{Call};

pub mod access;
mod slots;

use image::{Rec, Tran};
use promise::Answer;
use refusals::Refusal;
use slot::Entry;

// The record as this transaction sees it, at the first holder.
pub fn get(image: &[u8], tran: Tran, rec: Rec) -> Result<Answer, Refusal>
    ensures { Done (asked (Call.Get tran rec)) image.now result image.now }
{
    let found = access::look_up(image, tran, rec)?;
    let state = slots::read_first(image, found.holders, tran, rec);
    Ok(slots::reply(state))
}

// The slot of each holder gets the lock and the pending value. With no holder the block is made at its newest sites. A
// record that has a value out of range from before keeps it until it is stored anew or deleted.
pub fn store(image: &mut [u8], tran: Tran, rec: Rec, value: u16) -> Result<Answer, Refusal>
    ensures { Done (asked (Call.Store tran rec value)) image.old result image.new }
{
    let looked_up = access::look_up(image, tran, rec);
    let found = access::with_value(looked_up, value)?;
    let pending = Entry {
        present: true,
        value: value,
    };
    let holders = found.holders;
    if holders.cards == 0 {
        slots::lay(image, found.newest, tran, rec, pending);
        return Ok(Answer::Accepted);
    }
    slots::lock_all(image, holders, tran, rec, pending);
    Ok(Answer::Accepted)
}

// Where a get says absent, so does this, and no byte changes. Else the slot of each holder gets the lock and a pending
// absence.
pub fn delete(image: &mut [u8], tran: Tran, rec: Rec) -> Result<Answer, Refusal>
    ensures { Done (asked (Call.Delete tran rec)) image.old result image.new }
{
    let found = access::look_up(image, tran, rec)?;
    let state = slots::read_first(image, found.holders, tran, rec);
    if !state.present {
        return Ok(Answer::Absent);
    }
    let pending = Entry::absent();
    slots::lock_all(image, found.holders, tran, rec, pending);
    Ok(Answer::Accepted)
}
