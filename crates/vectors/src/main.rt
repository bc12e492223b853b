// Prints published vectors of SHA-256 and HMAC. The format, to the byte:
//   a vector is its name on a line, and then its parts: `input`, `block`, or `key` and `text`, and last `result`;
//   a part is a line of two spaces, its name and a colon, and then its words, eight to a line and the rest on the last line;
//   a line of words is four spaces and the words, with one space between, each by eight lowercase hexadecimal digits;
//   a part of no words is its first line alone, and a long input is a word and how often it stands there.
// A write that fails ends the program with its error.

#![tactic(auto)]

ghost use Rattle.std.specs.Prelude.{◌≤◌, length};

use std::{array, io};

// A part: its name, and its words.
fn part(out: &impl Print, name: &str, words: &[u32]) -> io::Result<()> {
    println!(out; "  {name}:")?;
    for (i, word) in words.iter().enumerate() {
        let before = if i % 8 == 0 { "    " } else { " " };
        let after = if i % 8 == 7 || i == words.len() - 1 {
            "\n"
        } else {
            ""
        };
        print!(out; "{before}{word:08x}{after}")?;
    }
    Ok(())
}

// The part that ends a vector.
fn result(out: &impl Print, words: [u32; 8]) -> io::Result<()> {
    part(out, "result", &words)
}

// The words of a text of at most 112 bytes, the first byte highest, with zeros after them.
fn words(text: &[u8]) -> [u32; 28]
    requires { length text.now ≤ 112 }
{
    let (quads, _) = text.as_chunks::<4>();
    let mut w = [0; 28];
    for (i, quad) in quads.iter().enumerate() {
        w[i] = u32::from_be_bytes(*quad);
    }
    w
}

// The digest of a text.
fn message(out: &impl Print, name: &str, text: &[u8]) -> io::Result<()>
    requires { length text.now ≤ 112 }
{
    println!(out; "SHA-256 {name}")?;
    let w = words(text);
    let input = &w[..text.len() / 4];
    part(out, "input", input)?;
    result(out, sha256::digest(input))
}

// The padded block of the text abc.
fn abc(out: &impl Print) -> io::Result<()> {
    println!(out; "SHA-256 abc by compress")?;
    let mut block = [0; 16];
    block[0] = 0x6162_6380;
    block[15] = 24;
    part(out, "block", &block)?;
    result(out, sha256::compress(sha256::start(), &block))
}

// A million letters a, a block at a time.
fn million(out: &impl Print) -> io::Result<()> {
    println!(out; "SHA-256 million letters a\n  input:\n    61616161 250000 times")?;
    let block = [0x6161_6161; 16];
    let blocks = 15625;
    let s = (0..blocks).fold(sha256::start(), |s, _| sha256::absorb(s, &block));
    result(out, sha256::finish(s, blocks))
}

// The HMAC of the text by the key.
fn hmac(out: &impl Print, name: &str, key: &[u32], text: &[u32]) -> io::Result<()>
    requires { length key.now ≤ 16 }
{
    println!(out; "HMAC-SHA-256 {name}")?;
    part(out, "key", key)?;
    part(out, "text", text)?;
    result(out, sha256::hmac(key, text))
}

// The words of the bytes that count up from b.
fn counted(b: u8) -> [u32; 16]
    requires { b ≤ 64 }
{
    array::from_fn(|i| {
        let x = b + 4 * i as u8;
        u32::from_be_bytes([x, x + 1, x + 2, x + 3])
    })
}

// The vectors of SHA-256.
fn digests(out: &impl Print) -> io::Result<()> {
    message(out, "empty message", b"")?;
    abc(out)?;
    message(
        out,
        "448-bit message",
        b"abcdbcdecdefdefgefghfghighijhijkijkljklmklmnlmnomnopnopq",
    )?;
    message(
        out,
        "896-bit message",
        b"abcdefghbcdefghicdefghijdefghijkefghijklfghijklmghijklmnhijklmnoijklmnopjklmnopqklmnopqrlmnopqrsmnopqrstnopqrstu",
    )?;
    million(out)
}

// RFC 4231, 4.2.
fn case1(out: &impl Print) -> io::Result<()> {
    let text = words(b"Hi There");
    hmac(out, "RFC 4231 case 1", &[0x0b0b_0b0b; 5], &text[..2])
}

// RFC 4231, 4.3.
fn case2(out: &impl Print) -> io::Result<()> {
    let key = words(b"Jefe");
    let text = words(b"what do ya want for nothing?");
    hmac(out, "RFC 4231 case 2", &key[..1], &text[..7])
}

// A key and a text of whole words, of bytes that count up.
fn rising_bytes(out: &impl Print) -> io::Result<()> {
    let key = counted(0);
    hmac(out, "key 00 to 1f text 40 to 7f", &key[..8], &counted(64))
}

fn main(rt: HostRuntime) -> io::Result<()> {
    digests(&rt)?;
    case1(&rt)?;
    case2(&rt)?;
    rising_bytes(&rt)
}
