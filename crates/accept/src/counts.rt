// Each address space's counts: pages owned, and blocks measured.
// kept: `n ≤ most_pages` of three: no plainer as a type, because n is one number of the machine, and is tested once for all

ghost use Rattle.std.specs.Prelude.{◌≡◌, ◌≤◌};
ghost use Rattle.words.specs.Words.{Says};
ghost use Rattle.machine.specs.Machine.{most_pages};
ghost use Rattle.ledger.specs.Names.{space, type_word};
ghost use Rattle.ledger.specs.Ledger.{rec};
ghost use Rattle.accept.specs.Checks.{Count, Counts, weight, Tallied, LowestSpace};

use ledger::{BLOCKS, COUNT, DATA_BLOCKS, OWNER, PageType, State, TYPE, is_state, is_type, word};
use machine::MOST_PAGES;

// Each owner's sum is one word: the pages that it owns, and its blocks in steps of this, which the pages do not reach.
const BLOCK: u32 = 2 * MOST_PAGES;

// A sum for each page that may own others.
const SUMS: usize = MOST_PAGES as usize;

// What a page of this type adds: all but a free page and a space 1; besides, in blocks, a thread 1 and a data page 65.
fn weigh(t: u32) -> u32
    ensures { result ≡ weight t }
{
    match PageType::try_from(t) {
        Ok(PageType::Free | PageType::Space) => 0,
        Ok(PageType::Thread) => 1 + BLOCK,
        Ok(PageType::Data) => 1 + BLOCK * DATA_BLOCKS,
        Ok(PageType::FirstLevel | PageType::SecondLevel | PageType::Spare) | Err(_) => 1,
    }
}

// The sum for each owner, by one pass.
fn tallies(n: u32, led: &[u32], sums: &mut [u32])
    requires n_le_most_pages { n ≤ most_pages }
    requires tallied { Tallied weight (rec led.now) 0 sums.old }
    ensures { Tallied weight (rec led.now) n sums.new }
{
    for p in 0..n {
        let k = weigh(word(led, p, TYPE));
        let a = word(led, p, OWNER);
        if a < MOST_PAGES {
            sums[a as usize] += k;
        }
    }
}

// If a is a space, are its counts these?
fn count_ok(n: u32, led: &[u32], a: u32, owned: u32, blocks: u32) -> bool
    requires { n ≤ most_pages }
    ensures { Says result (rec led.now a type_word ≡ space → Count n (rec led.now) a owned blocks) }
{
    if !is_type(led, a, PageType::Space) {
        return true;
    }
    if word(led, a, COUNT) != owned {
        return false;
    }
    let measured = word(led, a, BLOCKS);
    if is_state(led, a, State::Building) {
        return measured == blocks;
    }
    measured <= DATA_BLOCKS * n
}

// The lowest address space, where there is one.
fn first_space(n: u32, led: &[u32]) -> Option<u32>
    ensures { LowestSpace n (rec led.now) result }
{
    // kept: a loop, not `find`: no plainer, because its proof goes by way of the list of the numbers passed
    for a in 0..n {
        if is_type(led, a, PageType::Space) {
            return Some(a);
        }
    }
    None
}

// Are every space's counts right? (Where there is no space there is nothing to count.)
pub fn counts_ok(n: u32, led: &[u32]) -> bool
    requires { n ≤ most_pages }
    ensures { Says result (Counts n (rec led.now)) }
{
    let Some(first) = first_space(n, led) else {
        return true;
    };
    let mut sums = [0u32; SUMS];
    tallies(n, led, &mut sums);
    for a in first..n {
        let sum = sums[a as usize];
        if !count_ok(n, led, a, sum % BLOCK, sum / BLOCK) {
            return false;
        }
    }
    true
}
