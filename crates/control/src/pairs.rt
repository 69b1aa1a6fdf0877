// The pairs of placements by table, behind the tables of an image: written, and moved with their placement.
ghost use Rattle.std.specs.Prelude.{◌≡◌, ◌*◌, ◌+◌, ◌-◌, ◌<◌, ◌≤◌};
ghost use Rattle.lists.specs.Segments.{splice};
ghost use Rattle.image.specs.Layout.{most_active, pairs_size, tail_start};
ghost use Rattle.image.specs.Parts.{Whole};
ghost use Rattle.control.specs.ControlBytes.{tail_at};
ghost use Rattle.control.specs.Meaning.{only_pairs, put_tail};

// Where the pairs of placement i start in the image.
pub fn start(i: usize) -> usize
    requires { i < most_active }
    ensures { result ≡ tail_start + i * pairs_size }
{
    image::TAIL_START + i * image::PAIRS_SIZE
}

// Writes the pairs of placement i.
pub fn put(image: &mut [u8], i: usize, pairs: [u8; image::PAIRS_SIZE])
    requires { Whole image.old × (i < most_active) }
    ensures { image.new ≡ splice image.old (tail_start + i * pairs_size) pairs }
{
    image::write_at(image, start(i), &pairs);
}

// Of so many placements only the newest remains: its pairs move to the front of the bytes behind the tables, and the
// others become zero. Where no placement is by table those bytes are zero already, and callers skip it.
pub fn retire(image: &mut [u8], count: u8)
    requires { Whole image.old × (1 ≤ count) × (count ≤ most_active) }
    ensures { image.new ≡ put_tail image.old (only_pairs (tail_at image.old) (count - 1)) }
{
    let pairs = image::read_at(image, start((count - 1) as usize));
    put(image, 0, pairs);
    let rest = image::TAIL_START + image::PAIRS_SIZE;
    let end = image::IMAGE_SIZE;
    image::clear(&mut image[rest..end]);
}
