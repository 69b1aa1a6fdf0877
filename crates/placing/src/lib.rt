// place by table: the plant's lines say which two cards each block lies on.
#![tactic(auto)]

ghost use Rattle.std.specs.Prelude.{◌≡◌, ◌<◌};
ghost use Rattle.std.specs.Result.{IfOk};
ghost use Rattle.refusals.specs.Refusals.{row_of};
ghost use Rattle.image.specs.Layout.{most_active};
ghost use Rattle.method.specs.PlainList.{no_blocks};
ghost use Rattle.method.specs.Rules.{place, refusal};
ghost use Rattle.control.specs.Meaning.{Counted, meaning};
ghost use Rattle.cabinet_rules.specs.Cabinet.{cabinet};
ghost use Rattle.cabinet_rules.specs.Places.{by_lines};
ghost use Rattle.promise.specs.Given.{Given};
ghost use Rattle.promise.specs.Promise.{Done};
ghost use Rattle.placing.specs.Placed.{with_table};

use control::{Control, codec, serials, stamps};
use promise::Answer;
use refusals::Refusal;
use table_lines::Lines;

// The rows from 3 on, a test each, and the lines that pass them.
fn check<'a>(k: Control, bytes: &'a [u8]) -> Result<Lines<'a>, Refusal>
    requires { Counted k }
    ensures row { row_of result ≡ refusal cabinet (place (by_lines bytes.now)) (meaning k) (no_blocks cabinet) }
    ensures lines { IfOk result (λ lines. lines.bytes.now ≡ bytes.now) }
{
    let Some(lines) = Lines::new(bytes) else {
        return Err(Refusal::Range);
    };
    if k.stopped {
        return Err(Refusal::Stopped);
    }
    if !table_lines::work(lines.bytes, k.working) {
        return Err(Refusal::Placement);
    }
    let covered = lines.coverage();
    if covered.gap {
        return Err(Refusal::Gap);
    }
    if covered.overlap {
        return Err(Refusal::Overlap);
    }
    if k.count >= image::MOST_PLACED {
        return Err(Refusal::Active);
    }
    if k.serial >= serials::LIMIT {
        return Err(Refusal::Serials);
    }
    Ok(lines)
}

// The placement of the lines becomes the newest: its pairs stand behind those of the older placements, its mask and its
// mark before the tables, and every working card gets its stamp.
fn add(image: &mut [u8], k: Control, lines: Lines)
    requires given { Given k image.old }
    requires count_lt_most_active { k.count < most_active }
    ensures { image.new ≡ with_table lines.entry.bytes.now image.old }
{
    control::pairs::put(image, k.count as usize, lines.pairs());
    let mask = lines.named();
    let added = k.add_table(mask);
    codec::write(image, added);
    stamps::put_all(image, added.working, added.stamp());
}

// The placement of the lines becomes the newest.
pub fn place_by_table(image: &mut [u8], lines: &[u8]) -> Result<Answer, Refusal>
    ensures { Done (place (by_lines lines.now)) image.old result image.new }
{
    let k = control_form::read(image)?;
    let lines = check(k, lines)?;
    add(image, k, lines);
    Ok(Answer::Accepted)
}
