// The listing: commands performed on a lent image, and a line for each in a lent buffer.
#![tactic(auto)]

ghost use Rattle.std.specs.Prelude.{◌≤◌, ◌≡◌, length};
ghost use Rattle.lines.specs.Lines.{longest_line};
ghost use Rattle.listing.specs.Listing.{Listed, Stepped, has_room_for_all};

// The longest line of a command of five bytes.
pub const LONGEST_LINE: usize = lines::LONGEST_REST + 2 * command::SIZE;

// Performs one command, and puts its line at the start of the buffer: the number of bytes put. Where there is no room
// for the longest line nothing is done, and the answer is 0: it stays a number by its public clause (`Stepped`).
pub fn step(image: &mut [u8], number: u64, bytes: &[u8], out: &mut [u8]) -> usize
    ensures { Stepped number bytes.now out.old image.old result out.new
        image.new
        × (result ≤ longest_line (length bytes.now)) }
{
    if !lines::has_room(out, bytes) {
        return 0;
    }
    let answer = store::perform_command(image, bytes);
    lines::put_line(out, number, bytes, answer)
}

// Whether the longest lines of all commands have room, and their numbers 64 bits.
#[tactic(auto, unfolding(crate::specs::Listing::has_room_for_all))]
fn has_room_for_all(number: u64, input: &[u8], out: &[u8]) -> bool
    ensures { result ≡ has_room_for_all number input.now out.now }
{
    let commands = input.len().div_ceil(command::SIZE);
    commands <= out.len() / LONGEST_LINE
        && (commands == 0 || commands as u64 - 1 <= u64::MAX - number)
}

// Performs all commands of an input, and puts their lines at the start of the buffer, the first with this number: the
// number of bytes put. Where the longest lines have no room, or the numbers would pass 64 bits, nothing is done and the
// answer is 0: it stays a number by its public clause (`Listed`).
#[tactic(auto, using(crate::proofs::Steps::room_out), unfolding(crate::specs::Listing::image_behind, crate::specs::Listing::listing))]
pub fn run(image: &mut [u8], number: u64, input: &[u8], out: &mut [u8]) -> usize
    ensures { Listed number input.now out.old image.old result out.new
        image.new
        × (result ≤ length out.old) }
{
    if !has_room_for_all(number, input, out) {
        return 0;
    }
    let mut at = 0;
    for (i, bytes) in input.chunks(command::SIZE).enumerate() {
        at += step(image, number + i as u64, bytes, &mut out[at..]);
    }
    at
}
