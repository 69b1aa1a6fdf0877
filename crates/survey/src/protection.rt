// Whether the store would withstand the failure of any one working card, by counts.
ghost use Rattle.std.specs.Prelude.{◌≡◌};
ghost use Rattle.mask.specs.Masks.{byte};
ghost use Rattle.method.specs.Protection.{all_withstand, withstands};
ghost use Rattle.control.specs.Meaning.{Counted, meaning};
ghost use Rattle.cabinet_rules.specs.Cabinet.{cabinet};

use control::Control;
use control_form::COPIES;

// A placement with this mask withstands the failure of any one of its working cards: with one failed member more they
// are still fewer than copies, and it has more working members than copies.
fn withstands(working: u8, failed: u8, mask: u8) -> bool
    ensures { result ≡ withstands cabinet tt (byte working) (byte failed) (byte mask) }
{
    if mask::common(mask, failed) >= COPIES - 1 {
        return false;
    }
    mask::common(mask, working) > COPIES
}

// Each active placement withstands it.
pub fn all_withstand(k: Control) -> bool
    requires { Counted k }
    ensures { result ≡ all_withstand cabinet (meaning k) }
{
    for i in 0..k.count as usize {
        if !withstands(k.working, k.failed, k.masks[i]) {
            return false;
        }
    }
    true
}
