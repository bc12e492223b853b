// The functions of sha256_host, exported for C and Rust. A list is passed as a pointer and then a length.
// kept: slices, and a no where a length does not fit: the C interface

#![tactic(auto)]

ghost use Rattle.std.specs.Prelude.{◌≡◌, ◌&&◌, cond, ◌%◌, eqb, leb, length};
ghost use Rattle.sha256.specs.Sha256.{absorb, sha256};
ghost use Rattle.sha256.specs.Hmac.{hmac};

// The hash value `state`, of 8 words, takes in `words`, whole blocks.
#[unsafe(no_mangle)]
pub extern "C" fn sha256_absorb(state: &mut [u32], words: &[u32]) -> bool
    ensures value { result ≡ (eqb (length state.old) 8 && eqb (length words.now % 16) 0) }
    ensures state_after { state.new ≡ cond result (absorb state.old words.now) state.old }
{
    sha256_host::sha256_absorb(state, words)
}

// The digest of `words` goes to `out`, of 8 words.
#[unsafe(no_mangle)]
pub extern "C" fn sha256_digest(words: &[u32], out: &mut [u32]) -> bool
    ensures value { result ≡ eqb (length out.old) 8 }
    ensures out_after { out.new ≡ cond result (sha256 words.now) out.old }
{
    sha256_host::sha256_digest(words, out)
}

// The HMAC of `text` by `key`, of at most 16 words, goes to `out`, of 8 words.
#[unsafe(no_mangle)]
pub extern "C" fn sha256_hmac(key: &[u32], text: &[u32], out: &mut [u32]) -> bool
    ensures value { result ≡ (leb (length key.now) 16 && eqb (length out.old) 8) }
    ensures out_after { out.new ≡ cond result (hmac key.now text.now) out.old }
{
    sha256_host::sha256_hmac(key, text, out)
}
