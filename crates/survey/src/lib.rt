// The calls that tell how the store stands and change nothing: state and load.
#![tactic(auto)]

ghost use Rattle.promise.specs.Promise.{Done, asked};
ghost use Rattle.promise.specs.declared.Call.{Call};

mod loading;
mod protection;

use image::Card;
use promise::Answer;
use refusals::Refusal;

// Protected: there is no working card whose failure would stop the store.
pub fn state(image: &[u8]) -> Result<Answer, Refusal>
    ensures { Done (asked Call.State) image.now result image.now }
{
    let k = control_form::read(image)?;
    if k.stopped {
        return Err(Refusal::Stopped);
    }
    if protection::all_withstand(k) {
        return Ok(Answer::Protected);
    }
    Ok(Answer::Unprotected)
}

// How many records are committed present in the card's held blocks.
pub fn load(image: &[u8], card: Card) -> Result<Answer, Refusal>
    ensures { Done (asked (Call.Load card)) image.now result image.now }
{
    let k = control_form::read(image)?;
    promise::rows::check_card(k, card)?;
    Ok(Answer::Loaded(loading::load_table(image, card)))
}
