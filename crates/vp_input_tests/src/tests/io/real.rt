//! Sources and sinks over readers and writers of std.

use super::TEXT;
use std::io::{Error, ErrorKind, Read, Result as IoResult, Write};
use vp_io::{Failed, ReadStop, RealSink, RealSource, Sink, Source, WriteFault, put, read_all};

/// Gives or takes three bytes at each call, and fails at its second call.
#[derive(Drop)]
struct Flaky {
    calls: u32,
}

impl Flaky {
    fn turn(&mut self) -> IoResult<()> {
        self.calls = self.calls.saturating_add(1);
        if self.calls == 2 {
            return Err(Error::from(ErrorKind::BrokenPipe));
        }
        Ok(())
    }
}

impl Read for Flaky {
    fn read(&mut self, buf: &mut [u8]) -> IoResult<usize> {
        self.turn()?;
        Ok(buf.len().min(3))
    }
}

impl Write for Flaky {
    fn write(&mut self, buf: &[u8]) -> IoResult<usize> {
        self.turn()?;
        Ok(buf.len().min(3))
    }

    fn flush(&mut self) -> IoResult<()> {
        Ok(())
    }
}

#[test]
fn a_real_source_answers_the_readers_fault(rt: HostRuntime) {
    let mut source = RealSource::new(Flaky { calls: 0 });
    let mut into = [0; 8];
    assert_eq!(rt; source.read(&mut into), Ok(3));
    assert_eq!(rt; source.read(&mut into), Err(Failed));
    assert_eq!(rt; source.read(&mut into), Ok(3));
    match read_all(rt.alloc(), &mut RealSource::new(Flaky { calls: 0 })) {
        Ok(_) => assert!(rt; false, "a failed reader was read"),
        Err(stop) => assert_eq!(rt; stop, ReadStop::ReadFault),
    }
}

#[test]
fn a_real_sink_answers_the_writers_fault(rt: HostRuntime) {
    let mut sink = RealSink::new(Flaky { calls: 0 });
    assert_eq!(rt; sink.write(TEXT), Ok(3));
    assert_eq!(rt; sink.write(TEXT), Err(Failed));
    assert_eq!(rt; sink.write(TEXT), Ok(3));
    assert_eq!(rt;
        put(&mut RealSink::new(Flaky { calls: 0 }), TEXT),
        Err(WriteFault)
    );
    assert_eq!(rt; put(&mut RealSink::new(Flaky { calls: 2 }), TEXT), Ok(()));
}

/// Takes nothing, or takes all and can't be flushed.
#[derive(Drop)]
struct Stuck {
    takes: bool,
}

impl Write for Stuck {
    fn write(&mut self, buf: &[u8]) -> IoResult<usize> {
        Ok(if self.takes { buf.len() } else { 0 })
    }

    fn flush(&mut self) -> IoResult<()> {
        if self.takes {
            return Err(Error::from(ErrorKind::BrokenPipe));
        }
        Ok(())
    }
}

#[test]
fn a_real_sink_flushes_and_counts_a_write_of_nothing(rt: HostRuntime) {
    let mut nothing = RealSink::new(Stuck { takes: false });
    assert_eq!(rt; nothing.write(TEXT), Err(Failed));
    assert_eq!(rt; nothing.write(b""), Ok(0));
    let mut unflushed = RealSink::new(Stuck { takes: true });
    assert_eq!(rt; unflushed.write(TEXT), Err(Failed));
}
