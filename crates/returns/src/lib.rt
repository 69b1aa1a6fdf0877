// The return of a failed card to a stopped store, with its table as it is.
#![tactic(auto)]

ghost use Rattle.std.specs.Prelude.{◌≡◌, ◌<◌};
ghost use Rattle.refusals.specs.Refusals.{row_of};
ghost use Rattle.image.specs.Layout.{card_count};
ghost use Rattle.method.specs.Returning.{can_run};
ghost use Rattle.control.specs.Meaning.{Counted, meaning};
ghost use Rattle.cabinet_rules.specs.Cabinet.{cabinet};
ghost use Rattle.promise.specs.Given.{Given};
ghost use Rattle.returns.specs.Promise.{ReturnDone};
ghost use Rattle.returns.specs.Rejoining.{rejoined_on, return_rows_on};

use control::{Control, codec, stamps};
use image::Card;
use mask::Placement;
use promise::Answer;
use refusals::Refusal;

// The set of all locks, 1 to 15.
const EVERY_LOCK: u16 = 0xfffe;

// Rows 3, 8 and 19. A card is stale if its stamp is not the newest placement's, or if this does not name it.
fn check(image: &[u8], k: Control, card: Card) -> Result<(), Refusal>
    requires { Given k image.now }
    ensures { row_of result ≡ return_rows_on card.0 image.now }
{
    if card.0 >= Placement::MOST_CARDS {
        return Err(Refusal::Range);
    }
    if !k.stopped {
        return Err(Refusal::Card);
    }
    let newest = k.newest_mask();
    if !mask::has(k.failed, card) {
        return Err(Refusal::Card);
    }
    if !stamps::is_current(image, card, k.stamp()) {
        return Err(Refusal::Stale);
    }
    if !mask::has(newest, card) {
        return Err(Refusal::Stale);
    }
    Ok(())
}

// Whether a store with this control part can run: all members of the newest placement work, and no active placement is
// lost.
fn can_run(k: Control) -> bool
    requires { Counted k }
    ensures { result ≡ can_run cabinet (meaning k) }
{
    if !mask::within(k.newest_mask(), k.working) {
        return false;
    }
    control_form::all_safe(k)
}

// What was pending when the card failed has ended without it, so that every lock in its held blocks is dropped. Then it
// works again, and with it the store, if it can.
fn rejoin(image: &mut [u8], k: Control, card: Card)
    requires given { Given k image.old }
    requires card_lt_card_count { card.0 < card_count }
    ensures { image.new ≡ rejoined_on card.0 image.old }
{
    tables::end_held(image, mask::with_card(0, card), false, EVERY_LOCK);
    let admitted = k.admit(card);
    codec::write(image, admitted.rest(!can_run(admitted)));
}

// The card works again. A return that is taken answers ok, whether or not the store then runs.
pub fn return_card(image: &mut [u8], card: Card) -> Result<Answer, Refusal>
    ensures { ReturnDone card.0 image.old result image.new }
{
    let k = control_form::read(image)?;
    check(image, k, card)?;
    rejoin(image, k, card);
    Ok(Answer::Accepted)
}
