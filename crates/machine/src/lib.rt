// The machine numbers of document 01: do they fit, what is lent with them, and is a frame insecure?

#![tactic(auto)]

ghost use Rattle.std.specs.Prelude.{◌≡◌, ◌+◌};
ghost use Rattle.words.specs.Words.{Says};
ghost use Rattle.machine.specs.Machine.{machine_of, Fits, Lent, among, insecure};

use words::RECORD_WORDS;

// F, s, n, m, k: frames, first secure frame, secure pages, first monitor frame, monitor frames.
#[derive(Clone, Copy)]
pub struct Machine {
    pub frames: u32,
    pub secure: u32,
    pub pages: u32,
    pub monitor: u32,
    pub monitors: u32,
}

pub const MOST_FRAMES: u32 = 16384;

pub const MOST_PAGES: u32 = 1024;

pub const FRAME_WORDS: usize = 1024;

pub const HEADER_WORDS: usize = 64;

// The header's word at which the free map starts, the map's words, and the word after them.
pub const MAP_START: usize = 9;

pub const MAP_WORDS: usize = 32;

pub const MAP_END: usize = MAP_START + MAP_WORDS;

impl Machine {
    // The machine of these numbers, as a host lends them.
    pub fn new(frames: u32, secure: u32, pages: u32, monitor: u32, monitors: u32) -> Machine
        ensures { result ≡ machine_of frames secure pages monitor monitors }
    {
        Machine {
            frames,
            secure,
            pages,
            monitor,
            monitors,
        }
    }

    // Do the numbers keep the rules? (A sum is made only where it cannot wrap.)
    pub fn fits(self) -> bool
        ensures { Says result (Fits self) }
    {
        let frames = self.frames;
        let secure = self.secure;
        let pages = self.pages;
        let monitor = self.monitor;
        let monitors = self.monitors;
        if frames < 1 {
            return false;
        }
        if MOST_FRAMES < frames {
            return false;
        }
        if pages < 1 {
            return false;
        }
        if MOST_PAGES < pages {
            return false;
        }
        if monitors < 1 {
            return false;
        }
        if frames < pages {
            return false;
        }
        if frames - pages < secure {
            return false;
        }
        if frames < monitors {
            return false;
        }
        if frames - monitors < monitor {
            return false;
        }
        if secure + pages <= monitor {
            return true;
        }
        if monitor + monitors <= secure {
            return true;
        }
        false
    }

    // Do they, and are the memory and the ledger as long as they say?
    pub fn lent(self, mem: &[u32], led: &[u32]) -> bool
        ensures { Says result (Lent self mem.now led.now) }
    {
        if !self.fits() {
            return false;
        }
        if mem.len() != FRAME_WORDS * (self.frames as usize) {
            return false;
        }
        if led.len() != HEADER_WORDS + RECORD_WORDS * (self.pages as usize) {
            return false;
        }
        true
    }

    // Is frame f insecure? A frame of the monitor's is not.
    #[tactic(auto, unfolding(crate::specs::Machine::insecure))]
    pub fn insecure(self, f: u32) -> bool
        ensures { result ≡ insecure self f }
    {
        if self.frames <= f {
            return false;
        }
        if is_among(self.secure, self.pages, f) {
            return false;
        }
        !is_among(self.monitor, self.monitors, f)
    }

    // The frame of secure page p.
    pub fn frame(self, p: u32) -> usize
        ensures { result ≡ self.secure + p }
    {
        frame_of(self.secure, p)
    }
}

// The frame of page p, where the secure frames begin at frame s.
pub fn frame_of(s: u32, p: u32) -> usize
    ensures { result ≡ s + p }
{
    (s as usize) + (p as usize)
}

// Is f one of the `count` frames from `first` on?
fn is_among(first: u32, count: u32, f: u32) -> bool
    ensures { result ≡ among first count f }
{
    if f < first {
        return false;
    }
    f - first < count
}
