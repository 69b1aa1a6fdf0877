// The store for callers in other languages: its calls, a command's bytes, the move list, the converters of older images,
// questions that are no calls, and commands by their fields. An image is lent as a pointer and a length. An answer is one
// number of 32 bits.
#![tactic(auto)]

ghost use Rattle.std.specs.Prelude.{◌≡◌};
ghost use Rattle.method.specs.Rules.{begin, commit, delete, fail, fit, get, load, move, place, rollback, settle};
ghost use Rattle.method.specs.Rules.{start, state, store, withdraw};
ghost use Rattle.mask.specs.Masks.{byte};
ghost use Rattle.cabinet_rules.specs.Places.{by_lines, by_mask};
ghost use Rattle.codes.specs.Codes.{Coded, CodedCommand, CodedReturn};
ghost use Rattle.codes.specs.CommandCodes.{CodedReading, CodedWriting};
ghost use Rattle.codes.specs.FilledCodes.{CodedPairs, CodedStamps};
ghost use Rattle.codes.specs.ListCodes.{CodedList};
ghost use Rattle.codes.specs.ToldCodes.{told_code};
ghost use Rattle.command.specs.Commands.{fields_given};
ghost use Rattle.queries.specs.Queries.{holders_on, source_on, told_on};
ghost use Rattle.queries.specs.declared.Query.{Query};

use command::{Fields, Malformed};
use image::{Block, Card, Rec, Tran};
use queries::Query;

// All zero, then the mask's cards work and are the one placement.
#[unsafe(no_mangle)]
pub extern "C" fn nolpigat_start(image: &mut [u8], mask: u8) -> u32
    ensures { Coded (start (byte mask)) image.old result image.new }
{
    codes::code(store::start(image, mask))
}

// A transaction opens, with its home in the newest placement.
#[unsafe(no_mangle)]
pub extern "C" fn nolpigat_begin(image: &mut [u8], tran: u8, home: u8) -> u32
    ensures { Coded (begin tran home) image.old result image.new }
{
    codes::code(store::begin(image, Tran(tran), Card(home)))
}

// The record as the transaction sees it.
#[unsafe(no_mangle)]
pub extern "C" fn nolpigat_get(image: &[u8], tran: u8, rec: u16) -> u32
    ensures { Coded (get tran rec) image.now result image.now }
{
    codes::code(store::get(image, Tran(tran), Rec(rec)))
}

// The record is locked with a pending value.
#[unsafe(no_mangle)]
pub extern "C" fn nolpigat_store(image: &mut [u8], tran: u8, rec: u16, value: u16) -> u32
    ensures { Coded (store tran rec value) image.old result image.new }
{
    codes::code(store::store(image, Tran(tran), Rec(rec), value))
}

// The record is locked with a pending absence; absent already, nothing changes.
#[unsafe(no_mangle)]
pub extern "C" fn nolpigat_delete(image: &mut [u8], tran: u8, rec: u16) -> u32
    ensures { Coded (delete tran rec) image.old result image.new }
{
    codes::code(store::delete(image, Tran(tran), Rec(rec)))
}

// What the transaction locks takes its pending state; it closes.
#[unsafe(no_mangle)]
pub extern "C" fn nolpigat_commit(image: &mut [u8], tran: u8) -> u32
    ensures { Coded (commit tran) image.old result image.new }
{
    codes::code(store::commit(image, Tran(tran)))
}

// What the transaction locks drops its pending state; it closes.
#[unsafe(no_mangle)]
pub extern "C" fn nolpigat_rollback(image: &mut [u8], tran: u8) -> u32
    ensures { Coded (rollback tran) image.old result image.new }
{
    codes::code(store::rollback(image, Tran(tran)))
}

// A card begins to work, with an empty table.
#[unsafe(no_mangle)]
pub extern "C" fn nolpigat_fit(image: &mut [u8], card: u8) -> u32
    ensures { Coded (fit card) image.old result image.new }
{
    codes::code(store::fit(image, Card(card)))
}

// A card ceases to work; its table is zeroed.
#[unsafe(no_mangle)]
pub extern "C" fn nolpigat_withdraw(image: &mut [u8], card: u8) -> u32
    ensures { Coded (withdraw card) image.old result image.new }
{
    codes::code(store::withdraw(image, Card(card)))
}

// The mask's cards are the newest placement.
#[unsafe(no_mangle)]
pub extern "C" fn nolpigat_place(image: &mut [u8], mask: u8) -> u32
    ensures { Coded (place (by_mask (byte mask))) image.old result image.new }
{
    codes::code(store::place(image, mask))
}

// The plant's lines become the newest placement.
#[unsafe(no_mangle)]
pub extern "C" fn nolpigat_place_by_table(image: &mut [u8], lines: &[u8]) -> u32
    ensures { Coded (place (by_lines lines.now)) image.old result image.new }
{
    codes::code(store::place_by_table(image, lines))
}

// A card is lost.
#[unsafe(no_mangle)]
pub extern "C" fn nolpigat_fail(image: &mut [u8], card: u8) -> u32
    ensures { Coded (fail card) image.old result image.new }
{
    codes::code(store::fail(image, Card(card)))
}

// A failed card works again in a store that has stopped, with its table as it is.
#[unsafe(no_mangle)]
pub extern "C" fn nolpigat_return_card(image: &mut [u8], card: u8) -> u32
    ensures { CodedReturn card image.old result image.new }
{
    codes::code(store::return_card(image, Card(card)))
}

// A card's copy of a block goes to the newest sites.
#[unsafe(no_mangle)]
pub extern "C" fn nolpigat_move(image: &mut [u8], card: u8, block: u8) -> u32
    ensures { Coded (move card block) image.old result image.new }
{
    codes::code(store::move_block(image, Card(card), Block(block)))
}

// Older placements retire, if nothing is left there.
#[unsafe(no_mangle)]
pub extern "C" fn nolpigat_settle(image: &mut [u8]) -> u32
    ensures { Coded settle image.old result image.new }
{
    codes::code(store::settle(image))
}

// Whether failing any one working card would leave the store running.
#[unsafe(no_mangle)]
pub extern "C" fn nolpigat_state(image: &[u8]) -> u32
    ensures { Coded state image.now result image.now }
{
    codes::code(store::state(image))
}

// How many records are committed present on a card.
#[unsafe(no_mangle)]
pub extern "C" fn nolpigat_load(image: &[u8], card: u8) -> u32
    ensures { Coded (load card) image.now result image.now }
{
    codes::code(store::load(image, Card(card)))
}

// The call that a command's five bytes ask for; other bytes are refused with 15.
#[unsafe(no_mangle)]
pub extern "C" fn nolpigat_command(image: &mut [u8], bytes: &[u8]) -> u32
    ensures { CodedCommand bytes.now image.old result image.new }
{
    codes::code(store::perform_command(image, bytes))
}

// The fewest moves that let settle succeed, as bytes in the lent buffer.
#[unsafe(no_mangle)]
pub extern "C" fn nolpigat_move_list(image: &[u8], list: &mut [u8]) -> u32
    ensures { CodedList image.now list.old result list.new }
{
    codes::list_code(move_bytes::list(image, list))
}

// An image of 21,024 bytes is written into the lent buffer at 21,216 bytes.
#[unsafe(no_mangle)]
pub extern "C" fn nolpigat_convert_21024(older: &[u8], image: &mut [u8]) -> u32
    ensures { CodedPairs older.now image.old result image.new }
{
    codes::filled_code(store::convert_21024(older, image))
}

// An image of 21,216 bytes is written into the lent buffer at its length of today.
#[unsafe(no_mangle)]
pub extern "C" fn nolpigat_convert_21216(older: &[u8], image: &mut [u8]) -> u32
    ensures { CodedStamps older.now image.old result image.new }
{
    codes::filled_code(store::convert_21216(older, image))
}

// Whether the store has stopped: 1 or 0.
#[unsafe(no_mangle)]
pub extern "C" fn nolpigat_stopped(image: &[u8]) -> u32
    ensures { result ≡ told_code (told_on Query.Stopped image.now) }
{
    codes::told_code(queries::ask(image, Query::Stopped))
}

// How many placements are active.
#[unsafe(no_mangle)]
pub extern "C" fn nolpigat_placement_count(image: &[u8]) -> u32
    ensures { result ≡ told_code (told_on Query.PlacementCount image.now) }
{
    codes::told_code(queries::ask(image, Query::PlacementCount))
}

// The mask of an active placement, 0 the oldest.
#[unsafe(no_mangle)]
pub extern "C" fn nolpigat_placement(image: &[u8], index: u8) -> u32
    ensures { result ≡ told_code (told_on (Query.Placement index) image.now) }
{
    codes::told_code(queries::ask(image, Query::Placement(index)))
}

// The mask of working cards.
#[unsafe(no_mangle)]
pub extern "C" fn nolpigat_working(image: &[u8]) -> u32
    ensures { result ≡ told_code (told_on Query.Working image.now) }
{
    codes::told_code(queries::ask(image, Query::Working))
}

// The mask of failed cards.
#[unsafe(no_mangle)]
pub extern "C" fn nolpigat_failed(image: &[u8]) -> u32
    ensures { result ≡ told_code (told_on Query.Failed image.now) }
{
    codes::told_code(queries::ask(image, Query::Failed))
}

// The home card of an open transaction.
#[unsafe(no_mangle)]
pub extern "C" fn nolpigat_home(image: &[u8], tran: u8) -> u32
    ensures { result ≡ told_code (told_on (Query.Home (record { 0 = tran })) image.now) }
{
    codes::told_code(queries::ask(image, Query::Home(Tran(tran))))
}

// The lowest transaction that is not open, or 0.
#[unsafe(no_mangle)]
pub extern "C" fn nolpigat_free_transaction(image: &[u8]) -> u32
    ensures { result ≡ told_code (told_on Query.FreeTransaction image.now) }
{
    codes::told_code(queries::ask(image, Query::FreeTransaction))
}

// The card that a get of the record by the transaction reads.
#[unsafe(no_mangle)]
pub extern "C" fn nolpigat_source(image: &[u8], tran: u8, rec: u16) -> u32
    ensures { result ≡ told_code (source_on tran rec image.now) }
{
    codes::told_code(queries::source(image, Tran(tran), Rec(rec)))
}

// How many cards hold the block of the record that the transaction asks for.
#[unsafe(no_mangle)]
pub extern "C" fn nolpigat_holders(image: &[u8], tran: u8, rec: u16) -> u32
    ensures { result ≡ told_code (holders_on tran rec image.now) }
{
    codes::told_code(queries::holders(image, Tran(tran), Rec(rec)))
}

// The five bytes of a command with these fields; refused, the bytes stay as lent.
#[unsafe(no_mangle)]
pub extern "C" fn nolpigat_write_command(
    bytes: &mut [u8],
    operation: u8,
    tran: u8,
    card: u8,
    number: u16,
    value: u16,
) -> u32
    ensures { CodedWriting bytes.old (fields_given operation tran card number value) result bytes.new }
{
    let f = Fields {
        operation,
        tran,
        card,
        number,
        value,
    };
    match command::codec::write(bytes, f) {
        Ok(()) => codes::form_code(true),
        Err(Malformed) => codes::form_code(false),
    }
}

// The fields of a command's bytes; refused, the five numbers stay as lent.
#[unsafe(no_mangle)]
pub extern "C" fn nolpigat_read_command(
    bytes: &[u8],
    operation: &mut u8,
    tran: &mut u8,
    card: &mut u8,
    number: &mut u16,
    value: &mut u16,
) -> u32
    ensures { CodedReading bytes.now
        (fields_given operation.old tran.old card.old number.old value.old) result
        (fields_given operation.new tran.new card.new number.new value.new) }
{
    match command::codec::read(bytes) {
        Ok(f) => {
            *operation = f.operation;
            *tran = f.tran;
            *card = f.card;
            *number = f.number;
            *value = f.value;
            codes::form_code(true)
        }
        Err(Malformed) => codes::form_code(false),
    }
}
