ghost use Rattle.std.specs.Prelude.{◌≤◌, length};

use super::*;
use std::io;
use std::process::Abort;
use std::test::Fail;

// It fails at each call.
#[derive(Drop)]
struct Broken;

impl Read for Broken {
    fn read(&mut self, _buf: &mut [u8]) -> io::Result<usize> {
        Err(io::Error::from(io::ErrorKind::Other))
    }
}

impl Write for Broken {
    fn write(&mut self, _buf: &[u8]) -> io::Result<usize> {
        Err(io::Error::from(io::ErrorKind::Other))
    }

    fn flush(&mut self) -> io::Result<()> {
        Ok(())
    }
}

// Asserts what the source answers to a call for so many bytes.
fn assert_taken<R: Read>(
    rt: &impl Abort,
    source: &mut InputSource<R>,
    into: &mut Vec<u8>,
    max: usize,
    expected: Taken,
)
    requires { 1 ≤ max }
{
    assert_eq!(rt; source.take(into, max), expected);
}

// Asserts what the sink answers to these bytes.
fn assert_given<W: Write>(rt: &impl Abort, sink: &mut OutputSink<W>, bytes: &[u8], expected: Given)
    requires { 1 ≤ length bytes.now }
{
    assert_eq!(rt; sink.give(bytes), expected);
}

#[test]
fn reads_to_the_end(rt: HostRuntime) -> Result<(), Fail> {
    let alloc = rt.alloc();
    let bytes = vec![in alloc; b'x'; 70_000]?;
    let mut source = InputSource::new(alloc, bytes.as_slice())?;
    let mut into = Vec::new(alloc);
    assert_taken(&rt, &mut source, &mut into, 100, Taken::Got(100));
    assert_taken(&rt, &mut source, &mut into, 100_000, Taken::Got(65_536));
    assert_taken(&rt, &mut source, &mut into, 100_000, Taken::Got(4364));
    assert_taken(&rt, &mut source, &mut into, 100_000, Taken::End);
    assert_eq!(rt; into.as_slice(), bytes.as_slice());
    assert_eq!(rt; source.faults, 0);
    Ok(())
}

#[test]
fn a_failed_read_counts(rt: HostRuntime) -> Result<(), Fail> {
    let mut source = InputSource::new(rt.alloc(), Broken)?;
    let mut into = Vec::new(rt.alloc());
    assert_taken(&rt, &mut source, &mut into, 100, Taken::Failed);
    assert_eq!(rt; source.faults, 1);
    assert!(rt; into.is_empty());
    Ok(())
}

#[test]
fn writes_what_fits(rt: HostRuntime) {
    let mut room = [0u8; 5];
    let mut sink = OutputSink::new(room.as_mut_slice());
    assert_given(&rt, &mut sink, b"abc", Given::Took(3));
    assert_given(&rt, &mut sink, b"def", Given::Took(2));
    assert_eq!(rt; sink.faults, 0);
    // A write that takes nothing is a fault.
    assert_given(&rt, &mut sink, b"f", Given::Failed);
    assert_eq!(rt; sink.faults, 1);
}

#[test]
fn a_failed_write_counts(rt: HostRuntime) {
    let mut sink = OutputSink::new(Broken);
    assert_given(&rt, &mut sink, b"abc", Given::Failed);
    assert_eq!(rt; sink.faults, 1);
}
