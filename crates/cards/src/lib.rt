// start, fit, withdraw and place: which cards there are and which of them the records are placed on.
#![tactic(auto)]

ghost use Rattle.std.specs.Prelude.{◌≡◌, ◌<◌};
ghost use Rattle.lists.specs.Tests.{any_below};
ghost use Rattle.image.specs.Layout.{card_count, tran_bound};
ghost use Rattle.image.specs.Parts.{Whole};
ghost use Rattle.refusals.specs.Refusals.{row_of};
ghost use Rattle.method.specs.ControlPart.{begun_at};
ghost use Rattle.method.specs.Rules.{in_active, refusal, fit, withdraw, place};
ghost use Rattle.method.specs.PlainList.{no_blocks};
ghost use Rattle.mask.specs.Masks.{byte};
ghost use Rattle.control.specs.Meaning.{Counted, meaning, put_control};
ghost use Rattle.cabinet_rules.specs.Cabinet.{cabinet};
ghost use Rattle.cabinet_rules.specs.Places.{again_by_rails, by_mask};
ghost use Rattle.promise.specs.Promise.{Done, asked};
ghost use Rattle.promise.specs.declared.Call.{Call};
ghost use Rattle.cards.specs.Emptied.{emptied};

use control::{Control, codec, serials, stamps};
use image::{Card, TRAN_COUNT};
use mask::Placement;
use promise::Answer;
use refusals::Refusal;

// All zero, then the mask's cards work, are the one placement and have its stamp. Older contents are not examined.
pub fn start(image: &mut [u8], mask: u8) -> Result<Answer, Refusal>
    ensures { Done (asked (Call.Start mask)) image.old result image.new }
{
    if image.len() != image::IMAGE_SIZE {
        return Err(Refusal::Length);
    }
    if mask::members(mask) < image::LEAST_MEMBERS {
        return Err(Refusal::Placement);
    }
    image::clear(image);
    let k = Control::started(mask);
    codec::write(image, k);
    stamps::put_all(image, k.working, k.stamp());
    Ok(Answer::Accepted)
}

// Whether the card is in an active placement.
fn in_active(k: Control, card: Card) -> bool
    requires { Counted k }
    ensures { result ≡ in_active cabinet (meaning k) card.0 }
{
    for i in 0..k.count as usize {
        if mask::has(k.masks[i], card) {
            return true;
        }
    }
    false
}

// The card's table is zeroed, its stamp too, and then the control part is written.
fn empty_card(image: &mut [u8], card: Card, after: Control)
    requires whole { Whole image.old × (card.0 < card_count) }
    requires counted { Counted after }
    ensures { image.new ≡ put_control (emptied card.0 image.old) (meaning after) }
{
    image::clear_table(image, card);
    codec::write(image, after);
}

// The rows of fit from 3 on.
fn check_fit(k: Control, card: Card) -> Result<(), Refusal>
    requires { Counted k }
    ensures { row_of result ≡ refusal cabinet (fit card.0) (meaning k) (no_blocks cabinet) }
{
    if card.0 >= Placement::MOST_CARDS {
        return Err(Refusal::Range);
    }
    if k.stopped {
        return Err(Refusal::Stopped);
    }
    if mask::has(k.working, card) {
        return Err(Refusal::Card);
    }
    if in_active(k, card) {
        return Err(Refusal::Card);
    }
    Ok(())
}

// The card comes to work, no longer failed, with a table of zeros. Not one function with withdraw over a check and a
// change: the four lines that they share would need as many clauses, when each closure may be called and what it returns.
pub fn fit(image: &mut [u8], card: Card) -> Result<Answer, Refusal>
    ensures { Done (asked (Call.Fit card)) image.old result image.new }
{
    let k = control_form::read(image)?;
    check_fit(k, card)?;
    empty_card(image, card, k.admit(card));
    Ok(Answer::Accepted)
}

// Whether some transaction was begun at the card.
fn begun_here(k: Control, card: Card) -> bool
    ensures { result ≡ any_below tran_bound (begun_at (meaning k) card.0) }
{
    for i in 0..TRAN_COUNT {
        if codec::is_home(k.homes[i], card) {
            return true;
        }
    }
    false
}

// The rows of withdraw from 3 on.
fn check_withdraw(k: Control, card: Card) -> Result<(), Refusal>
    requires { Counted k }
    ensures { row_of result ≡ refusal cabinet (withdraw card.0) (meaning k) (no_blocks cabinet) }
{
    promise::rows::check_card(k, card)?;
    if in_active(k, card) {
        return Err(Refusal::Card);
    }
    if begun_here(k, card) {
        return Err(Refusal::Home);
    }
    Ok(())
}

// The card's table is zeroed; it no longer works.
pub fn withdraw(image: &mut [u8], card: Card) -> Result<Answer, Refusal>
    ensures { Done (asked (Call.Withdraw card)) image.old result image.new }
{
    let k = control_form::read(image)?;
    check_withdraw(k, card)?;
    empty_card(image, card, k.dismiss(card));
    Ok(Answer::Accepted)
}

// Whether the newest placement is the one that a place of this mask makes.
fn is_again(k: Control, mask: u8) -> bool
    requires { Counted k }
    ensures { result ≡ again_by_rails (meaning k).newest (byte mask) }
{
    if mask != k.newest_mask() {
        return false;
    }
    k.newest_by_rails()
}

// The rows of place from 4 on.
fn check_place(k: Control, mask: u8) -> Result<(), Refusal>
    requires { Counted k }
    ensures { row_of result ≡ refusal cabinet (place (by_mask (byte mask))) (meaning k) (no_blocks cabinet) }
{
    if k.stopped {
        return Err(Refusal::Stopped);
    }
    if mask::members(mask) < image::LEAST_MEMBERS {
        return Err(Refusal::Placement);
    }
    if !mask::within(mask, k.working) {
        return Err(Refusal::Placement);
    }
    if is_again(k, mask) {
        return Err(Refusal::Placement);
    }
    if k.count >= image::MOST_PLACED {
        return Err(Refusal::Active);
    }
    if k.serial >= serials::LIMIT {
        return Err(Refusal::Serials);
    }
    Ok(())
}

// The mask becomes the newest placement, by rails, and every working card gets its stamp.
pub fn place(image: &mut [u8], mask: u8) -> Result<Answer, Refusal>
    ensures { Done (asked (Call.Place mask)) image.old result image.new }
{
    let k = control_form::read(image)?;
    check_place(k, mask)?;
    let added = k.add(mask);
    codec::write(image, added);
    stamps::put_all(image, added.working, added.stamp());
    Ok(Answer::Accepted)
}
