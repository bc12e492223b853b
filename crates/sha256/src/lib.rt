// SHA-256 (FIPS 180-4) and HMAC by it (FIPS 198-1) on messages of whole 32-bit words.

#![tactic(auto)]

ghost use Rattle.std.specs.Prelude.{◌≡◌, ◌+◌, ◌-◌, ◌%◌, ◌^◌, ◌<◌, ◌≤◌, ◌++◌, length, take, replicate};
ghost use Rattle.sha256.specs.Sha256 as fips;
ghost use Rattle.sha256.specs.Hmac as mac;

use rounds::{Vars, all_rounds};

mod functions;
mod rounds;
mod schedule;

// So many words are 2^64 bits, where the length of a message wraps.
const WRAP: usize = 0x0800_0000_0000_0000;

// The hash value as the working variables.
// kept: a function and no `From`: no plainer, because its clause cites the definition of its name
fn vars_of(s: [u32; 8]) -> Vars
    ensures { result ≡ fips.vars_of s }
{
    let [a, b, c, d, e, f, g, h] = s;
    Vars {
        a,
        b,
        c,
        d,
        e,
        f,
        g,
        h,
    }
}

// The hash value plus the working variables.
// kept: eight sums by hand, no `zip`: no plainer, because the variables are fields, as in the definition.
fn sum_of(s: [u32; 8], v: Vars) -> [u32; 8]
    ensures { result ≡ fips.sum_of s v }
{
    [
        s[0].wrapping_add(v.a),
        s[1].wrapping_add(v.b),
        s[2].wrapping_add(v.c),
        s[3].wrapping_add(v.d),
        s[4].wrapping_add(v.e),
        s[5].wrapping_add(v.f),
        s[6].wrapping_add(v.g),
        s[7].wrapping_add(v.h),
    ]
}

// The initial hash value.
pub fn start() -> [u32; 8]
    ensures { result ≡ fips.H0 }
{
    [
        0x6a09_e667,
        0xbb67_ae85,
        0x3c6e_f372,
        0xa54f_f53a,
        0x510e_527f,
        0x9b05_688c,
        0x1f83_d9ab,
        0x5be0_cd19,
    ]
}

// The hash value after one block of 16 words.
pub fn compress(state: [u32; 8], block: &[u32; 16]) -> [u32; 8]
    ensures { result ≡ fips.compress state block.now }
{
    sum_of(state, all_rounds(vars_of(state), *block))
}

// The hash value after each whole block of `words`.
pub fn absorb(state: [u32; 8], words: &[u32]) -> [u32; 8]
    ensures { result ≡ fips.absorb state words.now }
{
    let (blocks, _) = words.as_chunks::<16>();
    blocks.iter().fold(state, compress)
}

// At most 16 words, with zeros to a block.
fn with_zeros(words: &[u32]) -> [u32; 16]
    requires { length words.now ≤ 16 }
    ensures { result ≡ words.now ++ replicate (16 - length words.now) 0 }
{
    let mut w = [0; 16];
    w[..words.len()].copy_from_slice(words);
    w
}

// A closing block: the length of a message of n words stands in the last two words.
fn with_length(mut block: [u32; 16], n: usize) -> [u32; 16]
    ensures { result ≡ take 14 block ++ fips.length_words n }
{
    block[14] = (n / 0x0800_0000 % 0x1_0000_0000) as u32;
    block[15] = (n % 0x0800_0000 * 32) as u32;
    block
}

// The hash value after a message of n words, whose last words that fill no block are `rest`.
fn close(state: [u32; 8], rest: &[u32], n: usize) -> [u32; 8]
    requires { length rest.now ≡ n % 16 }
    ensures { result ≡ fips.absorb state (rest.now ++ fips.padding n) }
{
    let at = rest.len();
    let mut b = with_zeros(rest);
    b[at] = 0x8000_0000;
    if at < 14 {
        return compress(state, &with_length(b, n));
    }
    compress(compress(state, &b), &with_length([0; 16], n))
}

// The digest of a message of whole blocks, from the hash value after its blocks and their number.
pub fn finish(state: [u32; 8], blocks: u32) -> [u32; 8]
    ensures { result ≡ fips.finish state blocks }
{
    close(state, &[], 16 * blocks as usize)
}

// The digest of a message that ends in `words`, from the hash value after the whole blocks before them, which have `before` words.
fn digest_on(state: [u32; 8], before: usize, words: &[u32]) -> [u32; 8]
    requires { (before % 16 ≡ 0) × (before < 2 ^ 40) }
    ensures { result ≡ fips.absorb state (words.now ++ fips.padding (before + length words.now)) }
{
    let (_, rest) = words.as_chunks::<16>();
    close(absorb(state, words), rest, before + words.len() % WRAP)
}

// The digest of a message of whole words.
pub fn digest(words: &[u32]) -> [u32; 8]
    ensures { result ≡ fips.sha256 words.now }
{
    digest_on(start(), 0, words)
}

// A block of words, each xor the pad.
fn masked(mut k: [u32; 16], pad: u32) -> [u32; 16]
    ensures { result ≡ mac.masked k pad }
{
    for w in &mut k {
        *w ^= pad;
    }
    k
}

// The digest of a block and then a text.
fn keyed(block: [u32; 16], text: &[u32]) -> [u32; 8]
    ensures { result ≡ fips.sha256 (block ++ text.now) }
{
    digest_on(compress(start(), &block), 16, text)
}

// HMAC of a text by a key of at most 16 words.
pub fn hmac(key: &[u32], text: &[u32]) -> [u32; 8]
    requires { length key.now ≤ 16 }
    ensures { result ≡ mac.hmac key.now text.now }
{
    let k0 = with_zeros(key);
    let inner = keyed(masked(k0, 0x3636_3636), text);
    keyed(masked(k0, 0x5c5c_5c5c), &inner)
}
