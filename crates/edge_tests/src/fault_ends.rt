ghost use Rattle.std.specs.Prelude.{◌≡◌, IfOk};

use fault_count::{MemorySink, ReadStep, Sink, Source, StdSink, StdSource, WriteStep};
use std::alloc::Global;
use std::io;
use std::io::{Error, ErrorKind, Read, Write};

// Is interrupted so often, and then reads and writes one byte at a time.
#[derive(Drop)]
struct Interrupted(u32);

impl Interrupted {
    fn step(&mut self) -> io::Result<usize>
        ensures { IfOk result (λ count. count ≡ 1) }
    {
        if self.0 > 0 {
            self.0 -= 1;
            return Err(Error::from(ErrorKind::Interrupted));
        }
        Ok(1)
    }
}

impl Read for Interrupted {
    fn read(&mut self, room: &mut [u8]) -> io::Result<usize> {
        let count = self.step()?;
        Ok(count.min(room.len()))
    }
}

impl Write for Interrupted {
    fn write(&mut self, bytes: &[u8]) -> io::Result<usize> {
        let count = self.step()?;
        Ok(count.min(bytes.len()))
    }

    fn flush(&mut self) -> io::Result<()> {
        Ok(())
    }
}

fn takes_two(alloc: Global) -> bool {
    let mut sink = MemorySink::new(2, Vec::new(alloc));
    sink.write(b"abc") == WriteStep::Took(2)
}

#[test]
fn a_memory_sink_with_memory_takes_a_piece(rt: HostRuntime) {
    assert!(rt; takes_two(rt.alloc()));
}

// Whether a read that is interrupted so often comes to this, with so many faults.
fn reads(interrupts: u32, step: ReadStep, faults: u64) -> bool {
    let mut source = StdSource::new(Interrupted(interrupts));
    source.read(&mut [0]) == step && source.faults() == faults
}

#[test]
fn an_interrupted_read_is_tried_again(rt: HostRuntime) {
    assert!(rt; reads(99, ReadStep::Got(1), 0) && reads(100, ReadStep::Failed, 1));
}

// Whether a write that is interrupted so often comes to this, with so many faults.
fn writes(interrupts: u32, step: WriteStep, faults: u64) -> bool {
    let mut sink = StdSink::new(Interrupted(interrupts));
    sink.write(b"a") == step && sink.faults() == faults
}

#[test]
fn an_interrupted_write_is_tried_again(rt: HostRuntime) {
    assert!(rt; writes(99, WriteStep::Took(1), 0) && writes(100, WriteStep::Failed, 1));
}
