// Lines of the report: a title, an answer, or a slot of the image. What cannot be written is left out.
use promise::Answer;
use refusals::Numbered;

fn write(rt: &impl Print, words: &[u8]) {
    let _ = rt.write_all(words);
}

// The marked example that follows.
pub fn title(rt: &impl Print, example: u8) {
    let _ = println!(rt; "M{example}");
}

// The whole life that follows.
pub fn life_title(rt: &impl Print) {
    let _ = println!(rt; "life");
}

// The five bytes of a slot.
pub fn slot(rt: &impl Print, bytes: [u8; 5]) {
    let [a, b, c, d, e] = bytes;
    let _ = println!(rt; " slot {a:02X}{b:02X}{c:02X}{d:02X}{e:02X}");
}

// An answer's words, by way of a lent buffer.
fn write_words<E: Numbered>(rt: &impl Print, space: &mut [u8], given: Result<Answer, E>) {
    let put = lines::put_words(space, given);
    write(rt, &space[..put]);
}

// An answer in the words of the listing: its refusal is one of the table, or any number in its place.
pub fn answer<E: Numbered>(rt: &impl Print, given: Result<Answer, E>) {
    let mut space = [0u8; lines::LONGEST_ANSWER];
    write(rt, b" ");
    write_words(rt, &mut space, given);
    write(rt, b"\n");
}
