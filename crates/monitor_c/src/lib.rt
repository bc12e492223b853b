// The services of monitor, exported for C and Rust. A list is passed as a pointer and then a length.
// kept: five numbers in each, not a Machine, and a number for an answer: the C interface (include/monitor.h)

#![tactic(auto)]

ghost use Rattle.machine.specs.Machine.{machine_of};
ghost use Rattle.accept.specs.Accept.{Accepts};
ghost use Rattle.batch.specs.Service.{Batched};
ghost use Rattle.boot.specs.Boot.{Booted};
ghost use Rattle.image.specs.Service.{BlocksCounted, BlockWritten, BlockRead, ReadingEnded};

#[unsafe(no_mangle)]
pub extern "C" fn monitor_boot(
    frames: u32,
    secure: u32,
    pages: u32,
    monitor: u32,
    monitors: u32,
    key: &[u32],
    mem: &mut [u32],
    led: &mut [u32],
) -> u32
    ensures { Booted (machine_of frames secure pages monitor monitors) key.now mem.old led.old result mem.new led.new }
{
    monitor::monitor_boot(frames, secure, pages, monitor, monitors, key, mem, led)
}

#[unsafe(no_mangle)]
pub extern "C" fn monitor_accepts(
    frames: u32,
    secure: u32,
    pages: u32,
    monitor: u32,
    monitors: u32,
    mem: &[u32],
    led: &[u32],
) -> bool
    ensures { Accepts (machine_of frames secure pages monitor monitors) mem.now led.now result }
{
    monitor::monitor_accepts(frames, secure, pages, monitor, monitors, mem, led)
}

#[unsafe(no_mangle)]
pub extern "C" fn monitor_batch(
    frames: u32,
    secure: u32,
    pages: u32,
    monitor: u32,
    monitors: u32,
    mem: &mut [u32],
    led: &mut [u32],
    calls: &[u32],
    answers: &mut [u32],
) -> u32
    ensures { Batched (machine_of frames secure pages monitor monitors) mem.old led.old calls.now answers.old result mem.new led.new answers.new }
{
    monitor::monitor_batch(
        frames, secure, pages, monitor, monitors, mem, led, calls, answers,
    )
}

#[unsafe(no_mangle)]
pub extern "C" fn monitor_image_blocks(
    frames: u32,
    secure: u32,
    pages: u32,
    monitor: u32,
    monitors: u32,
) -> u32
    ensures { BlocksCounted (machine_of frames secure pages monitor monitors) result }
{
    monitor::monitor_image_blocks(frames, secure, pages, monitor, monitors)
}

#[unsafe(no_mangle)]
pub extern "C" fn monitor_image_write(
    frames: u32,
    secure: u32,
    pages: u32,
    monitor: u32,
    monitors: u32,
    mem: &[u32],
    led: &[u32],
    number: u32,
    index: u32,
    block: &mut [u8],
) -> u32
    ensures { BlockWritten (machine_of frames secure pages monitor monitors) mem.now led.now number index block.old result block.new }
{
    monitor::monitor_image_write(
        frames, secure, pages, monitor, monitors, mem, led, number, index, block,
    )
}

#[unsafe(no_mangle)]
pub extern "C" fn monitor_image_read(
    frames: u32,
    secure: u32,
    pages: u32,
    monitor: u32,
    monitors: u32,
    mem: &mut [u32],
    led: &mut [u32],
    progress: &mut [u32],
    block: &[u8],
) -> u32
    ensures { BlockRead (machine_of frames secure pages monitor monitors) mem.old led.old progress.old block.now result mem.new led.new progress.new }
{
    monitor::monitor_image_read(
        frames, secure, pages, monitor, monitors, mem, led, progress, block,
    )
}

#[unsafe(no_mangle)]
pub extern "C" fn monitor_image_end(
    frames: u32,
    secure: u32,
    pages: u32,
    monitor: u32,
    monitors: u32,
    mem: &[u32],
    led: &[u32],
    progress: &mut [u32],
) -> u32
    ensures { ReadingEnded (machine_of frames secure pages monitor monitors) mem.now led.now progress.old result progress.new }
{
    monitor::monitor_image_end(frames, secure, pages, monitor, monitors, mem, led, progress)
}
