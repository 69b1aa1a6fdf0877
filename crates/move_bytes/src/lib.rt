// The moves that let settle succeed, as bytes in a buffer that the caller lends: an entry is two bytes, its card and
// its block. For callers that have no list of entries.
#![tactic(auto)]

ghost use Rattle.std.specs.Prelude.{◌≡◌, ◌*◌, ◌+◌, ◌≤◌, length};
ghost use Rattle.lists.specs.Segments.{splice};
ghost use Rattle.move_list.specs.Promise.{most_moves};
ghost use Rattle.move_bytes.specs.MoveBytes.{BytesDone, bytes_of, entry_size, first_bytes};

use move_list::{MOST_MOVES, Move};
use refusals::Refusal;

// The bytes of an entry.
pub const ENTRY_SIZE: usize = 2;

// The entry's bytes are put at this index.
fn put_entry(bytes: &mut [u8], at: usize, entry: Move)
    requires { at + entry_size ≤ length bytes.old }
    ensures { bytes.new ≡ splice bytes.old at (bytes_of entry) }
{
    let card = entry.0;
    let block = entry.1;
    bytes[at] = card.0;
    bytes[at + 1] = block.0;
}

// The first n entries are put into the buffer, from its beginning.
fn put_entries(bytes: &mut [u8], moves: &[Move; MOST_MOVES], n: usize)
    requires { (n ≤ most_moves) × (n * entry_size ≤ length bytes.old) }
    ensures { bytes.new ≡ splice bytes.old 0 (first_bytes moves.now n) }
{
    for i in 0..n {
        put_entry(bytes, i * ENTRY_SIZE, moves[i]);
    }
}

// The list in a buffer with room for half as many entries as it has bytes.
pub fn list(image: &[u8], bytes: &mut [u8]) -> Result<Option<u16>, Refusal>
    ensures { BytesDone image.now bytes.old result bytes.new }
{
    let found = store::moves::all(image);
    let listed = found.listed?;
    match listed {
        Some(count) => {
            let n = count as usize;
            if bytes.len() / ENTRY_SIZE < n {
                return Err(Refusal::List);
            }
            put_entries(bytes, &found.moves, n);
            Ok(Some(count))
        }
        None => Ok(None),
    }
}
