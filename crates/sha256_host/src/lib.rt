// SHA-256 and HMAC for a host, as the crate sha256_host_c exports them. Each answers false, and changes nothing, where a length does not fit.
// kept: slices, and a no where a length does not fit: the C interface

#![tactic(auto)]

ghost use Rattle.std.specs.Prelude.{◌≡◌, ◌&&◌, cond, ◌%◌, eqb, leb, length};
ghost use Rattle.sha256.specs.Sha256.{absorb, sha256};
ghost use Rattle.sha256.specs.Hmac.{hmac};

// The words of a hash value, and of a block.
const HASH: usize = 8;

const BLOCK: usize = 16;

// The hash value `state`, of 8 words, takes in `words`, whole blocks.
pub fn sha256_absorb(state: &mut [u32], words: &[u32]) -> bool
    ensures value { result ≡ (eqb (length state.old) 8 && eqb (length words.now % 16) 0) }
    ensures state_after { state.new ≡ cond result (absorb state.old words.now) state.old }
{
    let Some(s) = state.as_array::<HASH>() else {
        return false;
    };
    if words.len() % BLOCK != 0 {
        return false;
    }
    let r = sha256::absorb(*s, words);
    state.copy_from_slice(&r);
    true
}

// The digest of `words` goes to `out`, of 8 words.
pub fn sha256_digest(words: &[u32], out: &mut [u32]) -> bool
    ensures value { result ≡ eqb (length out.old) 8 }
    ensures out_after { out.new ≡ cond result (sha256 words.now) out.old }
{
    if out.len() != HASH {
        return false;
    }
    out.copy_from_slice(&sha256::digest(words));
    true
}

// The HMAC of `text` by `key`, of at most 16 words, goes to `out`, of 8 words.
pub fn sha256_hmac(key: &[u32], text: &[u32], out: &mut [u32]) -> bool
    ensures value { result ≡ (leb (length key.now) 16 && eqb (length out.old) 8) }
    ensures out_after { out.new ≡ cond result (hmac key.now text.now) out.old }
{
    if key.len() > BLOCK || out.len() != HASH {
        return false;
    }
    out.copy_from_slice(&sha256::hmac(key, text));
    true
}
