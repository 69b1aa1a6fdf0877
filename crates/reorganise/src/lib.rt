// The calls that reorganise the store: move and settle.
#![tactic(auto)]

ghost use Rattle.promise.specs.Promise.{Done, asked};
ghost use Rattle.promise.specs.declared.Call.{Call};

pub mod looking;
mod moving;
mod settling;

use image::{Block, Card};
use promise::Answer;
use refusals::Refusal;

// Each newest site that lacks the block gets a copy; the origin drops it unless it is a site.
pub fn move_block(image: &mut [u8], card: Card, block: Block) -> Result<Answer, Refusal>
    ensures { Done (asked (Call.Move card block)) image.old result image.new }
{
    let k = control_form::read(image)?;
    moving::check(image, k, card, block)?;
    Ok(Answer::Copied(moving::spread(image, k, card, block)))
}

// Only the newest placement remains, if every block lies where it has it.
pub fn settle(image: &mut [u8]) -> Result<Answer, Refusal>
    ensures { Done (asked Call.Settle) image.old result image.new }
{
    let k = control_form::read(image)?;
    settling::check(image, k)?;
    let retired = k.count - 1;
    settling::retire_pairs(image, k);
    control::codec::write(image, k.retire());
    Ok(Answer::Retired(retired))
}
