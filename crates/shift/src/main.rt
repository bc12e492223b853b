// Plays the calls of standard input on box A, each as a batch of its own, and prints a line for each.
// The text: the words of a call, call number first, in decimal with one blank between, and a semicolon after the last.
// A line: its number, the call's name and the words after its number, ` -> `, the answer's code and meaning,
// and, where the code is 0 and the call has values, a colon and the values.
// A read or a write that fails ends the program with its error.

#![tactic(auto)]

mod input;
mod output;

use machine::{FRAME_WORDS, HEADER_WORDS};
use std::io;
use words::RECORD_WORDS;

// Box A: 16 frames, secure pages 0-7 in frames 6-13, the monitor in frames 0-1.
// kept: five numbers, no Machine: the C interface, by monitor_boot and monitor_batch.
const FRAMES: u32 = 16;

const SECURE: u32 = 6;

const PAGES: u32 = 8;

const MONITOR: u32 = 0;

const MONITORS: u32 = 2;

const KEY: [u32; 8] = [1, 2, 3, 4, 5, 6, 7, 8];

const MEMORY_WORDS: usize = FRAMES as usize * FRAME_WORDS;

const LEDGER_WORDS: usize = HEADER_WORDS + PAGES as usize * RECORD_WORDS;

// The bytes of the text that are read. What stands after them is left unread.
const TEXT_BYTES: usize = 65536;

// The memory and the ledger of box A.
#[derive(Drop)]
struct BoxA {
    memory: [u32; MEMORY_WORDS],
    ledger: [u32; LEDGER_WORDS],
}

impl BoxA {
    // Word i of frame f holds 1024f + i: its own place.
    fn fill(&mut self) {
        for (i, word) in self.memory.iter_mut().enumerate() {
            *word = i as u32;
        }
    }

    // Boots the box, and says whether that was done.
    fn boot(&mut self) -> bool {
        let code = monitor::monitor_boot(
            FRAMES,
            SECURE,
            PAGES,
            MONITOR,
            MONITORS,
            &KEY,
            &mut self.memory,
            &mut self.ledger,
        );
        code == 0
    }

    // The answer to a batch of one call, or none where the batch is refused.
    fn batch(&mut self, call: &[u32; RECORD_WORDS]) -> Option<[u32; RECORD_WORDS]> {
        let mut answer = [0; RECORD_WORDS];
        let code = monitor::monitor_batch(
            FRAMES,
            SECURE,
            PAGES,
            MONITOR,
            MONITORS,
            &mut self.memory,
            &mut self.ledger,
            call,
            &mut answer,
        );
        (code == 0).then_some(answer)
    }
}

// Plays the call that a text spells, and prints its line.
fn obey(out: &impl Print, number: usize, text: &[u8], box_a: &mut BoxA) -> io::Result<()> {
    let mut call = [0; RECORD_WORDS];
    let given = input::read(text, &mut call);
    output::call(out, number, &call, given)?;
    let Some(answer) = box_a.batch(&call) else {
        return print!(out; " -> batch refused\n");
    };
    output::answer(out, call[0], &answer)
}

// The calls of a text, in order. What stands after the last semicolon is no call.
fn play(out: &impl Print, text: &[u8], box_a: &mut BoxA) -> io::Result<()> {
    for (i, piece) in text.split_inclusive(|byte| *byte == b';').enumerate() {
        if let Some(call) = piece.strip_suffix(b";") {
            obey(out, i + 1, call, box_a)?;
        }
    }
    Ok(())
}

fn main(rt: HostRuntime) -> io::Result<()> {
    let mut box_a = BoxA {
        memory: [0; MEMORY_WORDS],
        ledger: [0; LEDGER_WORDS],
    };
    box_a.fill();
    if !box_a.boot() {
        return print!(rt; "boot refused\n");
    }
    let mut text = [0; TEXT_BYTES];
    let n = input::read_full(rt.stdin(), &mut text)?;
    play(&rt, &text[..n], &mut box_a)
}
