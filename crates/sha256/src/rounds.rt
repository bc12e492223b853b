// The 64 rounds (FIPS 180-4, 6.2.2, step 3).
ghost use Rattle.std.specs.Prelude.{◌≡◌, ◌<◌, slice_index};
ghost use Rattle.sha256.specs.Sha256.{K, T1, T2, round, rounds, schedule};

use crate::functions::{big_sigma0, big_sigma1, choose, majority};
use crate::schedule::next16;

// The constants of 4.2.2, sixteen rounds a row.
const ROWS: [[u32; 16]; 4] = [
    [
        0x428a_2f98,
        0x7137_4491,
        0xb5c0_fbcf,
        0xe9b5_dba5,
        0x3956_c25b,
        0x59f1_11f1,
        0x923f_82a4,
        0xab1c_5ed5,
        0xd807_aa98,
        0x1283_5b01,
        0x2431_85be,
        0x550c_7dc3,
        0x72be_5d74,
        0x80de_b1fe,
        0x9bdc_06a7,
        0xc19b_f174,
    ],
    [
        0xe49b_69c1,
        0xefbe_4786,
        0x0fc1_9dc6,
        0x240c_a1cc,
        0x2de9_2c6f,
        0x4a74_84aa,
        0x5cb0_a9dc,
        0x76f9_88da,
        0x983e_5152,
        0xa831_c66d,
        0xb003_27c8,
        0xbf59_7fc7,
        0xc6e0_0bf3,
        0xd5a7_9147,
        0x06ca_6351,
        0x1429_2967,
    ],
    [
        0x27b7_0a85,
        0x2e1b_2138,
        0x4d2c_6dfc,
        0x5338_0d13,
        0x650a_7354,
        0x766a_0abb,
        0x81c2_c92e,
        0x9272_2c85,
        0xa2bf_e8a1,
        0xa81a_664b,
        0xc24b_8b70,
        0xc76c_51a3,
        0xd192_e819,
        0xd699_0624,
        0xf40e_3585,
        0x106a_a070,
    ],
    [
        0x19a4_c116,
        0x1e37_6c08,
        0x2748_774c,
        0x34b0_bcb5,
        0x391c_0cb3,
        0x4ed8_aa4a,
        0x5b9c_ca4f,
        0x682e_6ff3,
        0x748f_82ee,
        0x78a5_636f,
        0x84c8_7814,
        0x8cc7_0208,
        0x90be_fffa,
        0xa450_6ceb,
        0xbef9_a3f7,
        0xc671_78f2,
    ],
];

// The eight working variables of 6.2.2.
#[derive(Clone, Copy)]
pub struct Vars {
    pub a: u32,
    pub b: u32,
    pub c: u32,
    pub d: u32,
    pub e: u32,
    pub f: u32,
    pub g: u32,
    pub h: u32,
}

fn t1(v: Vars, k: u32, w: u32) -> u32
    ensures { result ≡ T1 v k w }
{
    v.h.wrapping_add(big_sigma1(v.e))
        .wrapping_add(choose(v.e, v.f, v.g))
        .wrapping_add(k)
        .wrapping_add(w)
}

fn t2(v: Vars) -> u32
    ensures { result ≡ T2 v }
{
    big_sigma0(v.a).wrapping_add(majority(v.a, v.b, v.c))
}

fn one_round(v: Vars, k: u32, w: u32) -> Vars
    ensures { result ≡ round v k w }
{
    let x = t1(v, k, w);
    let y = t2(v);
    Vars {
        a: x.wrapping_add(y),
        b: v.a,
        c: v.b,
        d: v.c,
        e: v.d.wrapping_add(x),
        f: v.e,
        g: v.f,
        h: v.g,
    }
}

// Round i of sixteen.
fn at(v: Vars, k: &[u32; 16], w: &[u32; 16], i: usize) -> Vars
    requires { i < 16 }
    ensures { result ≡ round v (slice_index k.now i) (slice_index w.now i) }
{
    one_round(v, k[i], w[i])
}

// Sixteen rounds.
// kept: tried a loop, slower (22 % more instructions for a page); written out, the variables change names and not places.
fn sixteen(v0: Vars, k: &[u32; 16], w: &[u32; 16]) -> Vars
    ensures { result ≡ rounds 16 k.now w.now v0 }
{
    let v = at(v0, k, w, 0);
    let v = at(v, k, w, 1);
    let v = at(v, k, w, 2);
    let v = at(v, k, w, 3);
    let v = at(v, k, w, 4);
    let v = at(v, k, w, 5);
    let v = at(v, k, w, 6);
    let v = at(v, k, w, 7);
    let v = at(v, k, w, 8);
    let v = at(v, k, w, 9);
    let v = at(v, k, w, 10);
    let v = at(v, k, w, 11);
    let v = at(v, k, w, 12);
    let v = at(v, k, w, 13);
    let v = at(v, k, w, 14);
    at(v, k, w, 15)
}

// The 64 rounds over a block, whose schedule is rolled through its sixteen words.
// kept: tried a loop over the rows, slower (3 % more instructions for a page).
pub fn all_rounds(v0: Vars, mut b: [u32; 16]) -> Vars
    ensures { result ≡ rounds 64 K (schedule b) v0 }
{
    let v = sixteen(v0, &ROWS[0], &b);
    next16(&mut b);
    let v = sixteen(v, &ROWS[1], &b);
    next16(&mut b);
    let v = sixteen(v, &ROWS[2], &b);
    next16(&mut b);
    sixteen(v, &ROWS[3], &b)
}
