// Words in a list of bytes, the low byte first.

ghost use Rattle.std.specs.Prelude.{◌≡◌, ◌+◌, ◌*◌, ◌^◌, ◌≤◌, ◌<◌, length};
ghost use Rattle.words.specs.Words.{paste};
ghost use Rattle.words.specs.Bytes.{byte_bits, word_bytes, bytes_of, word_at};

// The bytes of a word.
pub const WORD_BYTES: usize = 4;

// How many values a byte has; 1 in each byte of a word but the low one.
pub const BYTE: u32 = 256;

pub const SECOND: u32 = 256;

pub const THIRD: u32 = 65536;

pub const FOURTH: u32 = 16777216;

// Word k of the bytes.
#[tactic(auto, unfolding(crate::specs::Bytes::word_at))]
pub fn word_at(bytes: &[u8], k: usize) -> u32
    requires { word_bytes * k + word_bytes ≤ length bytes.now }
    ensures { result ≡ word_at bytes.now k }
{
    let at = WORD_BYTES * k;
    u32::from_le_bytes([bytes[at], bytes[at + 1], bytes[at + 2], bytes[at + 3]])
}

// w as word k of the bytes.
#[tactic(auto, using(crate::proofs::Paste::part_pasted), unfolding(crate::specs::Bytes::bytes_of))]
pub fn put_word_at(bytes: &mut [u8], k: usize, w: u32)
    requires { word_bytes * k + word_bytes ≤ length bytes.old }
    ensures { bytes.new ≡ paste bytes.old (word_bytes * k) word_bytes (bytes_of w) }
{
    let at = WORD_BYTES * k;
    bytes[at..at + WORD_BYTES].copy_from_slice(&w.to_le_bytes());
}
