// A host that calls the function behind every export with whatever it has: each asks nothing, and each ensures its relation. One that asked
// for anything, or ensured less, would leave one of these unproved. The crates monitor_c, sha256_host_c and crc32_host_c, on which no crate
// can depend, export them under the very same clauses.
// kept: five numbers in each, not a Machine, and a number for an answer: the C interface, whose words stand here once more (.ci/exports)

#![tactic(auto)]

ghost use Rattle.std.specs.Prelude.{◌≡◌, ◌&&◌, cond, ◌%◌, eqb, leb, length};
ghost use Rattle.machine.specs.Machine.{machine_of};
ghost use Rattle.sha256.specs.Sha256.{absorb, sha256};
ghost use Rattle.sha256.specs.Hmac.{hmac};
ghost use Rattle.accept.specs.Accept.{Accepts};
ghost use Rattle.batch.specs.Service.{Batched};
ghost use Rattle.boot.specs.Boot.{Booted};
ghost use Rattle.image.specs.Service.{BlocksCounted, BlockWritten, BlockRead, ReadingEnded};
ghost use Rattle.crc32.specs.Crc32.{crc32};

pub fn monitor_boot(
    frames: u32,
    secure: u32,
    pages: u32,
    monitor: u32,
    monitors: u32,
    key: &[u32],
    mem: &mut [u32],
    led: &mut [u32],
) -> u32
    ensures { Booted (machine_of frames secure pages monitor monitors) key.now mem.old led.old result mem.new led.new }
{
    monitor::monitor_boot(frames, secure, pages, monitor, monitors, key, mem, led)
}

pub fn monitor_accepts(
    frames: u32,
    secure: u32,
    pages: u32,
    monitor: u32,
    monitors: u32,
    mem: &[u32],
    led: &[u32],
) -> bool
    ensures { Accepts (machine_of frames secure pages monitor monitors) mem.now led.now result }
{
    monitor::monitor_accepts(frames, secure, pages, monitor, monitors, mem, led)
}

pub fn monitor_batch(
    frames: u32,
    secure: u32,
    pages: u32,
    monitor: u32,
    monitors: u32,
    mem: &mut [u32],
    led: &mut [u32],
    calls: &[u32],
    answers: &mut [u32],
) -> u32
    ensures { Batched (machine_of frames secure pages monitor monitors) mem.old led.old calls.now answers.old result mem.new led.new answers.new }
{
    monitor::monitor_batch(
        frames, secure, pages, monitor, monitors, mem, led, calls, answers,
    )
}

pub fn monitor_image_blocks(
    frames: u32,
    secure: u32,
    pages: u32,
    monitor: u32,
    monitors: u32,
) -> u32
    ensures { BlocksCounted (machine_of frames secure pages monitor monitors) result }
{
    monitor::monitor_image_blocks(frames, secure, pages, monitor, monitors)
}

pub fn monitor_image_write(
    frames: u32,
    secure: u32,
    pages: u32,
    monitor: u32,
    monitors: u32,
    mem: &[u32],
    led: &[u32],
    number: u32,
    index: u32,
    block: &mut [u8],
) -> u32
    ensures { BlockWritten (machine_of frames secure pages monitor monitors) mem.now led.now number index block.old result block.new }
{
    monitor::monitor_image_write(
        frames, secure, pages, monitor, monitors, mem, led, number, index, block,
    )
}

pub fn monitor_image_read(
    frames: u32,
    secure: u32,
    pages: u32,
    monitor: u32,
    monitors: u32,
    mem: &mut [u32],
    led: &mut [u32],
    progress: &mut [u32],
    block: &[u8],
) -> u32
    ensures { BlockRead (machine_of frames secure pages monitor monitors) mem.old led.old progress.old block.now result mem.new led.new progress.new }
{
    monitor::monitor_image_read(
        frames, secure, pages, monitor, monitors, mem, led, progress, block,
    )
}

pub fn monitor_image_end(
    frames: u32,
    secure: u32,
    pages: u32,
    monitor: u32,
    monitors: u32,
    mem: &[u32],
    led: &[u32],
    progress: &mut [u32],
) -> u32
    ensures { ReadingEnded (machine_of frames secure pages monitor monitors) mem.now led.now progress.old result progress.new }
{
    monitor::monitor_image_end(frames, secure, pages, monitor, monitors, mem, led, progress)
}

pub fn sha256_absorb(state: &mut [u32], words: &[u32]) -> bool
    ensures value { result ≡ (eqb (length state.old) 8 && eqb (length words.now % 16) 0) }
    ensures state_after { state.new ≡ cond result (absorb state.old words.now) state.old }
{
    sha256_host::sha256_absorb(state, words)
}

pub fn sha256_digest(words: &[u32], out: &mut [u32]) -> bool
    ensures value { result ≡ eqb (length out.old) 8 }
    ensures out_after { out.new ≡ cond result (sha256 words.now) out.old }
{
    sha256_host::sha256_digest(words, out)
}

pub fn sha256_hmac(key: &[u32], text: &[u32], out: &mut [u32]) -> bool
    ensures value { result ≡ (leb (length key.now) 16 && eqb (length out.old) 8) }
    ensures out_after { out.new ≡ cond result (hmac key.now text.now) out.old }
{
    sha256_host::sha256_hmac(key, text, out)
}

pub fn crc32_of(bytes: &[u8]) -> u32
    ensures { result ≡ crc32 bytes.now }
{
    crc32_host::crc32_of(bytes)
}
