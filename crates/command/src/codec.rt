// The fields of a command, read off its bytes and written as them.
ghost use Rattle.std.specs.Prelude.{◌≡◌};
ghost use Rattle.command.specs.Commands.{fields_leave, shown_fields, write_fields};

use crate::{Fields, Malformed, SIZE};

// The fields of a command's bytes.
#[tactic(auto, unfolding(crate::specs::Commands::shown_fields, crate::specs::Commands::well_formed, crate::specs::Commands::fields_in))]
pub fn read(bytes: &[u8]) -> Result<Fields, Malformed>
    ensures { result ≡ shown_fields bytes.now }
{
    if bytes.len() != SIZE {
        return Err(Malformed);
    }
    let f = crate::decode(bytes[0], bytes[1], bytes[2], bytes[3], bytes[4]);
    if crate::is_formed(f) {
        return Ok(f);
    }
    Err(Malformed)
}

// Writes a command with these fields. Refused, the bytes stay as found.
#[tactic(auto, unfolding(crate::specs::Commands::write_fields, crate::specs::Commands::fields_leave))]
pub fn write(bytes: &mut [u8], f: Fields) -> Result<(), Malformed>
    ensures { (result ≡ write_fields bytes.old f) × (bytes.new ≡ fields_leave bytes.old f) }
{
    if bytes.len() != SIZE {
        return Err(Malformed);
    }
    if crate::is_formed(f) {
        crate::encode(bytes, f);
        return Ok(());
    }
    Err(Malformed)
}
