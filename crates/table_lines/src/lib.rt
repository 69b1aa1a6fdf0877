// The lines of a table by which a plant chooses the cards of blocks: lent bytes, four a line.
#![tactic(auto)]

ghost use Rattle.std.specs.Prelude.{◌≡◌, true, false, ◌||◌, ◌<◌, eqb, ltb};
ghost use Rattle.std.specs.Option.{MatchOption};
ghost use Rattle.lists.specs.Tests.{all_below};
ghost use Rattle.image.specs.Layout.{card_count};
ghost use Rattle.mask.specs.Masks.{byte, with_card};
ghost use Rattle.mask.specs.Pairs.{pair_bound, pairs_from};
ghost use Rattle.table_lines.specs.Lines.{
  are_lines,
  has_block,
  has_gap,
  has_overlap,
  line_at,
  line_count,
  line_in_range,
  line_works,
  lines_with,
  lines_work,
  named_by,
  pair_by,
};
ghost use Rattle.table_lines.specs.Meant.{meant};

use image::{BLOCK_COUNT, Block, CARD_COUNT, Card};

// The bytes of a line, and the most lines.
const LINE_SIZE: usize = 4;

const MOST_LINES: usize = BLOCK_COUNT;

// A line: its first and its last block, and the cards of their first and their second site.
#[derive(Clone, Copy)]
struct Line {
    first: u8,
    last: u8,
    one: u8,
    two: u8,
}

// How many whole lines there are.
fn line_count(lines: &[u8]) -> usize
    ensures { result ≡ line_count lines.now }
{
    lines.len() / LINE_SIZE
}

// Line i. Inlined, so that a loop over lines reads only the bytes that it uses.
#[inline(always)]
fn line_at(lines: &[u8], i: usize) -> Line
    requires { i < line_count lines.now }
    ensures { meant result ≡ line_at lines.now i }
{
    let at = i * LINE_SIZE;
    Line {
        first: lines[at],
        last: lines[at + 1],
        one: lines[at + 2],
        two: lines[at + 3],
    }
}

// The line's numbers are in their ranges, and its first block is not above its last.
#[tactic(auto, unfolding(crate::specs::Lines::line_in_range))]
fn line_in_range(line: Line) -> bool
    ensures { result ≡ line_in_range (meant line) }
{
    line.last < BLOCK_COUNT as u8
        && line.first <= line.last
        && line.one < CARD_COUNT as u8
        && line.two < CARD_COUNT as u8
}

// So are those of every line.
fn all_in_range(lines: &[u8]) -> bool
    ensures { result ≡ all_below (line_count lines.now) (λ i. line_in_range (line_at lines.now i)) }
{
    (0..line_count(lines)).all(|i| line_in_range(line_at(lines, i)))
}

// The bytes are whole lines, not too many, and each line is in its ranges.
#[tactic(auto, unfolding(crate::specs::Lines::are_lines))]
fn in_range(lines: &[u8]) -> bool
    ensures { result ≡ are_lines lines.now }
{
    lines.len() % LINE_SIZE == 0 && line_count(lines) <= MOST_LINES && all_in_range(lines)
}

// The line's cards are different and work.
#[tactic(auto, unfolding(crate::specs::Lines::line_works))]
fn line_works(working: u8, line: Line) -> bool
    ensures { result ≡ line_works (byte working) (meant line) }
{
    line.one != line.two && mask::has(working, Card(line.one)) && mask::has(working, Card(line.two))
}

// So are those of every line.
pub fn work(lines: &[u8], working: u8) -> bool
    ensures { result ≡ lines_work (byte working) lines.now }
{
    (0..line_count(lines)).all(|i| line_works(working, line_at(lines, i)))
}

// The line has the block.
#[tactic(auto, unfolding(crate::specs::Lines::has_block))]
fn has_block(line: Line, block: Block) -> bool
    ensures { result ≡ has_block (meant line) block.0 }
{
    line.first <= block.0 && block.0 <= line.last
}

// The mask with the cards of the line.
fn with_line(mask: u8, line: Line) -> u8
    requires { (line.one < card_count) × (line.two < card_count) }
    ensures { byte result ≡ with_card (with_card (byte mask) line.one) line.two }
{
    mask::with_card(mask::with_card(mask, Card(line.one)), Card(line.two))
}

// Whether some block is in no line, and whether some block is in two.
#[derive(Clone, Copy)]
pub struct Covered {
    pub gap: bool,
    pub overlap: bool,
}

impl Covered {
    // What is found with a block more, which n lines have.
    fn with_block(self, n: usize) -> Covered
        ensures { (result.gap ≡ (eqb n 0 || self.gap)) × (result.overlap ≡ (ltb 1 n || self.overlap)) }
    {
        match n {
            0 => Covered { gap: true, ..self },
            1 => self,
            _ => Covered {
                overlap: true,
                ..self
            },
        }
    }
}

// The lines of a table: bytes that are whole lines, not too many, and each line in its ranges.
#[derive(Clone, Copy)]
pub struct Lines<'a> {
    pub bytes: &'a [u8],
    ghost are_lines: { are_lines bytes.now ≡ true },
}

impl<'a> Lines<'a> {
    // The lines that the bytes are, if they are lines.
    pub fn new(bytes: &'a [u8]) -> Option<Lines<'a>>
        ensures { MatchOption result (are_lines bytes.now ≡ false) (λ lines. lines.bytes.now ≡ bytes.now) }
    {
        if in_range(bytes) {
            Some(Lines { bytes })
        } else {
            None
        }
    }

    // How many there are.
    fn count(self) -> usize
        ensures { result ≡ line_count self.entry.bytes.now }
    {
        line_count(self.bytes)
    }

    // Line i. Inlined as the read below it is.
    #[inline(always)]
    fn line(self, i: usize) -> Line
        requires { i < line_count self.bytes.now }
        ensures is { meant result ≡ line_at self.entry.bytes.now i }
        ensures cards { (result.one < card_count) × (result.two < card_count) }
    {
        line_at(self.bytes, i)
    }

    // How many lines have the block.
    fn with_block(self, block: Block) -> usize
        ensures { result ≡ lines_with self.entry.bytes.now block.0 }
    {
        let mut n: usize = 0;
        for i in 0..self.count() {
            if has_block(self.line(i), block) {
                n += 1;
            }
        }
        n
    }

    // What is found of all blocks: each is looked up in the lines once.
    pub fn coverage(self) -> Covered
        ensures { (result.gap ≡ has_gap self.entry.bytes.now) × (result.overlap ≡ has_overlap self.entry.bytes.now) }
    {
        let mut found = Covered {
            gap: false,
            overlap: false,
        };
        for b in 0..BLOCK_COUNT as u8 {
            found = found.with_block(self.with_block(Block(b)));
        }
        found
    }

    // The cards that the lines name.
    pub fn named(self) -> u8
        ensures { byte result ≡ named_by self.entry.bytes.now (line_count self.entry.bytes.now) }
    {
        let mut mask: u8 = 0;
        for i in 0..self.count() {
            mask = with_line(mask, self.line(i));
        }
        mask
    }

    // The pair of a block: that of the last line that has it.
    fn pair_for(self, block: Block) -> u8
        ensures { (result ≡ pair_by self.entry.bytes.now block.0 (line_count self.entry.bytes.now)) × (result < pair_bound) }
    {
        let mut pair: u8 = 0;
        for i in 0..self.count() {
            let line = self.line(i);
            if has_block(line, block) {
                pair = line.one * CARD_COUNT as u8 + line.two;
            }
        }
        pair
    }

    // The pairs of all blocks, as bytes keep them.
    pub fn pairs(self) -> [u8; image::PAIRS_SIZE]
        ensures { result ≡ (pairs_from (λ b. pair_by self.entry.bytes.now b (line_count self.entry.bytes.now))).0 }
    {
        let mut each = [0u8; BLOCK_COUNT];
        for b in 0..BLOCK_COUNT {
            each[b] = self.pair_for(Block(b as u8));
        }
        mask::pairs::pack(each)
    }
}
