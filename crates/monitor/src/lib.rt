// The services for a host: machine numbers as words, what is lent as slices. They ask nothing of what is lent: what does not fit gets 18,
// or a no. The crate monitor_c exports them.
// kept: five numbers in each, not a Machine, and a number for an answer: the C interface, whose words the exports and the crate host have to the letter (.ci/exports)

#![tactic(auto)]

ghost use Rattle.machine.specs.Machine.{machine_of};
ghost use Rattle.accept.specs.Accept.{Accepts};
ghost use Rattle.batch.specs.Service.{Batched};
ghost use Rattle.boot.specs.Boot.{Booted};
ghost use Rattle.image.specs.Service.{BlocksCounted, BlockWritten, BlockRead, ReadingEnded};

use accept::accepts;
use answer::code;
use machine::Machine;

pub fn monitor_boot(
    frames: u32,
    secure: u32,
    pages: u32,
    monitor: u32,
    monitors: u32,
    key: &[u32],
    mem: &mut [u32],
    led: &mut [u32],
) -> u32
    ensures { Booted (machine_of frames secure pages monitor monitors) key.now mem.old led.old result mem.new led.new }
{
    code(boot::serve(
        Machine::new(frames, secure, pages, monitor, monitors),
        key,
        mem,
        led,
    ))
}

pub fn monitor_accepts(
    frames: u32,
    secure: u32,
    pages: u32,
    monitor: u32,
    monitors: u32,
    mem: &[u32],
    led: &[u32],
) -> bool
    ensures { Accepts (machine_of frames secure pages monitor monitors) mem.now led.now result }
{
    accepts(
        Machine::new(frames, secure, pages, monitor, monitors),
        mem,
        led,
    )
}

pub fn monitor_batch(
    frames: u32,
    secure: u32,
    pages: u32,
    monitor: u32,
    monitors: u32,
    mem: &mut [u32],
    led: &mut [u32],
    calls: &[u32],
    answers: &mut [u32],
) -> u32
    ensures { Batched (machine_of frames secure pages monitor monitors) mem.old led.old calls.now answers.old result mem.new led.new answers.new }
{
    code(batch::serve(
        Machine::new(frames, secure, pages, monitor, monitors),
        mem,
        led,
        calls,
        answers,
    ))
}

pub fn monitor_image_blocks(
    frames: u32,
    secure: u32,
    pages: u32,
    monitor: u32,
    monitors: u32,
) -> u32
    ensures { BlocksCounted (machine_of frames secure pages monitor monitors) result }
{
    image::blocks(Machine::new(frames, secure, pages, monitor, monitors)).unwrap_or(0)
}

pub fn monitor_image_write(
    frames: u32,
    secure: u32,
    pages: u32,
    monitor: u32,
    monitors: u32,
    mem: &[u32],
    led: &[u32],
    number: u32,
    index: u32,
    block: &mut [u8],
) -> u32
    ensures { BlockWritten (machine_of frames secure pages monitor monitors) mem.now led.now number index block.old result block.new }
{
    code(image::write(
        Machine::new(frames, secure, pages, monitor, monitors),
        mem,
        led,
        number,
        index,
        block,
    ))
}

pub fn monitor_image_read(
    frames: u32,
    secure: u32,
    pages: u32,
    monitor: u32,
    monitors: u32,
    mem: &mut [u32],
    led: &mut [u32],
    progress: &mut [u32],
    block: &[u8],
) -> u32
    ensures { BlockRead (machine_of frames secure pages monitor monitors) mem.old led.old progress.old block.now result mem.new led.new progress.new }
{
    code(image::read(
        Machine::new(frames, secure, pages, monitor, monitors),
        mem,
        led,
        progress,
        block,
    ))
}

pub fn monitor_image_end(
    frames: u32,
    secure: u32,
    pages: u32,
    monitor: u32,
    monitors: u32,
    mem: &[u32],
    led: &[u32],
    progress: &mut [u32],
) -> u32
    ensures { ReadingEnded (machine_of frames secure pages monitor monitors) mem.now led.now progress.old result progress.new }
{
    code(image::end(
        Machine::new(frames, secure, pages, monitor, monitors),
        mem,
        led,
        progress,
    ))
}
