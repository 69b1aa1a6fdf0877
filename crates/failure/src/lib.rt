// fail: a card is lost, and the store goes on without it or stops; one that has stopped marks it.
#![tactic(auto)]

ghost use Rattle.std.specs.Prelude.{false, Ok, ◌≡◌};
ghost use Rattle.refusals.specs.Refusals.{row_of};
ghost use Rattle.image.specs.Parts.{Whole};
ghost use Rattle.method.specs.Rules.{stopping};
ghost use Rattle.control.specs.Meaning.{Counted, meaning};
ghost use Rattle.cabinet_rules.specs.Cabinet.{cabinet};
ghost use Rattle.cabinet_rules.specs.Images.{control_in};
ghost use Rattle.promise.specs.Promise.{Done, asked};
ghost use Rattle.promise.specs.declared.Call.{Call};
ghost use Rattle.failure.specs.Failing.{Failing, fail_rows, stopped_on};

use control::{Control, codec, stamps};
use image::Card;
use mask::Placement;
use promise::Answer;
use refusals::Refusal;

// Rows 3 and 8. There is no row 4: a store that has stopped marks cards too.
fn check(k: Control, card: Card) -> Result<(), Refusal>
    ensures { row_of result ≡ fail_rows (meaning k) card.0 }
{
    if card.0 >= Placement::MOST_CARDS {
        return Err(Refusal::Range);
    }
    if !mask::has(k.working, card) {
        return Err(Refusal::Card);
    }
    Ok(())
}

// An active placement is lost: the store stops, with what was open rolled back on the cards that work.
fn stop(image: &mut [u8], marked: Control)
    requires whole { Whole image.old }
    requires counted { Counted marked }
    ensures { image.new ≡ stopped_on (meaning marked) image.old }
{
    tables::end_held(image, marked.working, false, tables::all_open(marked));
    codec::write(image, marked.halt());
}

// No active placement is lost: what was begun at the card is rolled back, and if the card was in the newest placement
// one without it is added, by rails, and every card that still works gets its stamp.
fn go_on(image: &mut [u8], marked: Control, card: Card) -> Answer
    requires failing { Failing marked image.old card.0 }
    requires card_value { stopping cabinet (control_in image.old) card.0 ≡ false }
    ensures { Done (asked (Call.Fail card)) image.old (Ok result) image.new }
{
    tables::end_held(image, marked.working, false, tables::begun_at(marked, card));
    let closed = marked.close_at(card);
    let newest = marked.newest_mask();
    if mask::has(newest, card) {
        let mask = mask::without_card(newest, card);
        let added = closed.add(mask);
        codec::write(image, added);
        stamps::put_all(image, added.working, added.stamp());
        return Answer::Placed(mask);
    }
    codec::write(image, closed);
    Answer::Unplaced
}

// The card no longer works and is marked failed. Where the store has stopped that is all; where an active placement is then
// lost, the store stops.
pub fn fail(image: &mut [u8], card: Card) -> Result<Answer, Refusal>
    ensures { Done (asked (Call.Fail card)) image.old result image.new }
{
    let k = control_form::read(image)?;
    check(k, card)?;
    let marked = k.mark_failed(card);
    if k.stopped {
        codec::write(image, marked);
        return Ok(Answer::Stopped);
    }
    if !control_form::all_safe(marked) {
        stop(image, marked);
        return Ok(Answer::Stopped);
    }
    Ok(go_on(image, marked, card))
}
