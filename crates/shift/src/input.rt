// Reads calls from a text. Any text is taken: bytes that are no digits are passed over, words are kept to 32 bits,
// and a call to 32 words.
ghost use Rattle.std.specs.Prelude.{◌≤◌, length, IfOk};

use std::io;
use words::RECORD_WORDS;

// Reads until the text is full or the input ends, and says how many bytes were read: they stand at the text's start.
// Each read asks for all that is left: what a socket hands over in one piece and is not asked for is lost, as it would be by `io::copy`.
pub fn read_full(mut from: impl io::Read + Drop, text: &mut [u8]) -> io::Result<usize>
    ensures { IfOk result (λ n. n ≤ length text.new) }
{
    let mut done = 0;
    for _ in 0..text.len() {
        let rest = &mut text[done..];
        if rest.is_empty() {
            break;
        }
        let n = from.read(rest)?;
        if n == 0 {
            break;
        }
        done += n;
    }
    Ok(done)
}

// The word that the digits of a text spell.
fn word(text: &[u8]) -> u32 {
    text.iter()
        .filter_map(|byte| char::from(*byte).to_digit(10))
        .fold(
            0u32,
            |word, digit| word.wrapping_mul(10).wrapping_add(digit),
        )
}

// Reads the call that a text spells into a record, and says how many words were given.
pub fn read(text: &[u8], record: &mut [u32; RECORD_WORDS]) -> usize
    ensures { result ≤ 32 }
{
    let spelled = text.split_inclusive(|byte| *byte == b' ');
    let mut given = 0;
    for (slot, digits) in record.iter_mut().zip(spelled) {
        *slot = word(digits);
        given += 1;
    }
    given
}
