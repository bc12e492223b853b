// The CRC-32 of IEEE 802.3, a word a step by four tables, and the last bytes one by one.

#![tactic(auto)]

mod slices;

ghost use Rattle.std.specs.Prelude.{◌≡◌};
ghost use Rattle.words.specs.Words.{word_bits};
ghost use Rattle.words.specs.Bytes.{byte_bits};
ghost use Rattle.crc32.specs.Crc32.{bits_in, crc32};
ghost use Rattle.crc32.specs.Slices.{Slices};

use slices::{TABLE, TABLES, slices};
use words::{BYTE, WORD_BYTES};

// Where the tables start of one and of two bytes of zeros more, and of three.
const SECOND_TABLE: usize = TABLE;

const THIRD_TABLE: usize = 512;

const FOURTH_TABLE: usize = 768;

// A byte goes in.
fn byte_in(t: &[u32; TABLES], c: u32, x: u8) -> u32
    requires { Slices t.now }
    ensures { result ≡ bits_in byte_bits c x }
{
    let y = (c ^ u32::from(x)) % BYTE;
    (c / BYTE) ^ t[y as usize]
}

// A word goes in: its four bytes, the low one first.
fn word_in(t: &[u32; TABLES], c: u32, w: u32) -> u32
    requires { Slices t.now }
    ensures { result ≡ bits_in word_bits c w }
{
    let [x, y, z, last] = (c ^ w).to_le_bytes();
    let a = t[FOURTH_TABLE + usize::from(x)] ^ t[THIRD_TABLE + usize::from(y)];
    a ^ (t[SECOND_TABLE + usize::from(z)] ^ t[usize::from(last)])
}

// The CRC-32 of the bytes.
pub fn crc32(bytes: &[u8]) -> u32
    ensures { result ≡ crc32 bytes.now }
{
    let t = slices();
    let (words, rest) = bytes.as_chunks::<WORD_BYTES>();
    let mut c = u32::MAX;
    for w in words {
        c = word_in(t, c, u32::from_le_bytes(*w));
    }
    for x in rest {
        c = byte_in(t, c, *x);
    }
    !c
}
