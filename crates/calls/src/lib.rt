// The table of calls: numbers, how many arguments each has, and what it does.
// kept: machine, memory and ledger side by side: docs/RULES.md, "Forms of the code": memory and ledger are slices of u32

#![tactic(auto)]

mod call;

ghost use Rattle.std.specs.Prelude.{◌≡◌, ◌+◌, ◌≤◌};
ghost use Rattle.words.specs.Words.{record_words};
ghost use Rattle.machine.specs.Machine.{Lent};
ghost use Rattle.answer.specs.Answer.{numbers};
ghost use Rattle.records.specs.Records.{args};
ghost use Rattle.calls.specs.Acted.{acted};

use answer::{Answer, Refusal};
pub use call::{Call, NoCall};
use machine::Machine;
use mapping::Mapping;
use words::RECORD_WORDS;

// ---- where arguments of 8 words begin: a text, a measurement, a MAC

const TEXT: usize = 1;

const MEASUREMENT: usize = 9;

const MAC: usize = 17;

// N words of a record, from word `at` on.
fn part<const N: usize>(words: &[u32; RECORD_WORDS], at: usize) -> &[u32; N]
    requires { at + N ≤ record_words }
    ensures { result.now ≡ args words.now at N }
{
    words[at..at + N].as_array().unwrap()
}

impl Call {
    // What a record of this call does.
    // kept: one match, no table of closures: no plainer, because each call has arguments of its own, and the match has to name every call
    #[tactic(auto, unfolding(crate::specs::Acted::acted, crate::specs::Acted::found, crate::specs::Table::calls, crate::specs::Table::lookup))]
    pub fn act(
        self,
        b: Machine,
        mem: &mut [u32],
        led: &mut [u32],
        words: &[u32; RECORD_WORDS],
    ) -> Result<Answer, Refusal>
        requires { Lent b mem.old led.old }
        ensures { record { ans = numbers result; mem = mem.new; led = led.new } ≡ acted b mem.old led.old words.now self }
    {
        let [_, x, y, z, u, ..] = *words;
        match self {
            Call::GetPhysPages => Ok(system::get_phys_pages(b)),
            Call::InitAddrSpace => building::init_addr_space(b, led, x, y),
            Call::InitThread => building::init_thread(b, led, x, y, z),
            Call::InitTable => building::init_table(b, mem, led, x, y, z),
            Call::AllocSpare => building::alloc_spare(b, led, x, y),
            Call::MapSecure => building::map_secure(b, mem, led, x, y, Mapping(z), u),
            Call::MapInsecure => building::map_insecure(b, mem, led, x, Mapping(y), z),
            Call::Finalise => building::finalise(b, led, x),
            Call::Enter => system::enter_thread(b, led, x, y, z, u),
            Call::Resume => system::resume(b, led, x),
            Call::Stop => system::stop(b, led, x),
            Call::Remove => system::remove(b, mem, led, x),
            Call::FreePages => Ok(system::free_pages(b, led)),
            Call::GetRandom => Ok(attesting::get_random(x)),
            Call::Attest => Ok(attesting::attest(led, part(words, TEXT))),
            Call::Verify => Ok(attesting::verify(
                led,
                part(words, TEXT),
                part(words, MEASUREMENT),
                part(words, MAC),
            )),
            Call::SpareTable => enclave::spare_table(b, mem, led, x, y),
            Call::MapData => enclave::map_data(b, mem, led, x, Mapping(y)),
            Call::UnmapData => enclave::unmap_data(b, mem, led, x),
            Call::Exit => Ok(enclave::exit(led, x)),
            Call::Interrupt => Ok(enclave::interrupt(led, part(words, 1))),
            Call::Fault => Ok(enclave::fault(led)),
            Call::Load => Ok(enclave::load(b, mem, led, x)),
            Call::Store => Ok(enclave::store(b, mem, led, x, y)),
        }
    }
}
