// Prints a call and its answer.
ghost use Rattle.std.specs.Prelude.{◌≤◌};

use answer::{FAULTED, INTERRUPTED, REGS, Refusal};
use calls::{Call, NoCall};
use ledger::HASH_WORDS;
use std::io;
use words::RECORD_WORDS;

// Words, a blank before each.
fn words(out: &impl Print, list: &[u32]) -> io::Result<()> {
    for word in list {
        print!(out; " {word}")?;
    }
    Ok(())
}

// The name of a call's number.
fn name(out: &impl Print, number: u32) -> io::Result<()> {
    match Call::try_from(number) {
        Ok(call) => print!(out; "{call}"),
        Err(NoCall(number)) => print!(out; "Unknown {number}"),
    }
}

// How many values a call has when it is done.
fn values(call: Call) -> usize
    ensures { result ≤ 17 }
{
    match call {
        Call::GetPhysPages | Call::GetRandom | Call::Verify | Call::Exit | Call::Load => 1,
        Call::FreePages => 2,
        Call::Attest => HASH_WORDS,
        Call::Enter | Call::Resume => REGS,
        _ => 0,
    }
}

// What an answer's code means. (Three refusals are the services' alone.)
// kept: a code is a number: the C interface, whose records are words
fn meaning(out: &impl Print, code: u32) -> io::Result<()> {
    match code {
        0 => print!(out; "done"),
        INTERRUPTED => print!(out; "interrupted"),
        FAULTED => print!(out; "fault"),
        _ => match Refusal::try_from(code) {
            Ok(Refusal::IllFitting | Refusal::BadBlock | Refusal::NotAccepted) | Err(_) => {
                print!(out; "unknown")
            }
            Ok(refusal) => print!(out; "{refusal}"),
        },
    }
}

// The call's part of a line: its name and the words given after its number.
// kept: a record and how many of its words were given: no plainer as a slice, because a call of no words has a number all the same
pub fn call(
    out: &impl Print,
    number: usize,
    record: &[u32; RECORD_WORDS],
    given: usize,
) -> io::Result<()> {
    print!(out; "{number} ")?;
    name(out, record[0])?;
    words(out, record.get(1..given).unwrap_or(&[]))
}

// The values of a call that is done.
fn done(out: &impl Print, call: u32, answer: &[u32; RECORD_WORDS]) -> io::Result<()> {
    match Call::try_from(call).map_or(0, values) {
        0 => Ok(()),
        n => {
            print!(out; ":")?;
            words(out, &answer[1..=n])
        }
    }
}

// The answer's part of a line.
pub fn answer(out: &impl Print, call: u32, answer: &[u32; RECORD_WORDS]) -> io::Result<()> {
    let code = answer[0];
    print!(out; " -> {code} ")?;
    meaning(out, code)?;
    if code == 0 {
        done(out, call, answer)?;
    }
    print!(out; "\n")
}
