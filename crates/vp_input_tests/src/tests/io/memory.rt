//! Sources and sinks in memory.

use super::TEXT;
use std::alloc::Global;
use std::test::Fail;
use vp_io::{
    CountSink, Failed, LIMIT, MemSink, MemSource, PureSource, ReadStop, Sink, Source, WriteFault,
    put, read_all,
};

#[test]
fn mem_source_fails_at_the_listed_calls(rt: HostRuntime) -> Result<(), Fail> {
    let cases: [(usize, &[u32], bool); 8] = [
        (1, &[], true),
        (1, &[1], false),
        (1, &[11], false),
        (1, &[12], true),
        (4, &[4], false),
        (4, &[0, 5, 4000000000], true),
        (100, &[2], false),
        (100, &[3], true),
    ];
    for (step, fails, is_whole) in cases {
        let mut source = MemSource::new(TEXT, step, fails);
        let read = read_all(rt.alloc(), &mut source);
        match read {
            Ok(bytes) => {
                assert!(rt; is_whole, "step {step}");
                assert_eq!(rt; bytes.as_slice(), TEXT.as_slice());
            }
            Err(stop) => {
                assert!(rt; !is_whole, "step {step}");
                assert_eq!(rt; stop, ReadStop::ReadFault);
            }
        }
    }
    Ok(())
}

#[test]
fn mem_source_goes_on_after_a_fault(rt: HostRuntime) {
    let mut source = MemSource::new(TEXT, 4, &[2]);
    let mut into = [0; 8];
    assert_eq!(rt; source.read(&mut into), Ok(4));
    assert_eq!(rt; source.read(&mut into), Err(Failed));
    assert_eq!(rt; source.read(&mut into), Ok(4));
    assert_eq!(rt; into, [52, 53, 54, 55, 0, 0, 0, 0]);
    assert_eq!(rt; source.read(&mut into), Ok(2));
    assert_eq!(rt; source.read(&mut into), Ok(0));
}

#[test]
fn mem_sink_fails_at_the_listed_calls_and_where_it_is_full(rt: HostRuntime) {
    let cases: [(usize, usize, &[u32], usize); 9] = [
        (10, 1, &[], 10),
        (10, 1, &[10], 9),
        (10, 1, &[11], 10),
        (12, 100, &[], 10),
        (10, 4, &[1], 0),
        (10, 4, &[3], 8),
        (9, 4, &[], 9),
        (7, 3, &[3], 6),
        (0, 1, &[], 0),
    ];
    for (size, step, fails, kept) in cases {
        let mut room = [0; 12];
        assert!(rt; size <= 12);
        let mut sink = MemSink::new(&mut room[..size], step, fails);
        let outcome = put(&mut sink, TEXT);
        let wanted = if kept == 10 { Ok(()) } else { Err(WriteFault) };
        assert_eq!(rt; outcome, wanted, "size {size} step {step}");
        assert!(rt; kept <= 10);
        assert_eq!(rt; sink.taken(), &TEXT[..kept], "size {size} step {step}");
    }
}

#[test]
fn nothing_is_put_into_no_room(rt: HostRuntime) {
    let mut room = [0; 0];
    let mut sink = MemSink::new(&mut room, 1, &[]);
    assert_eq!(rt; put(&mut sink, b""), Ok(()));
    assert_eq!(rt; sink.write(b""), Ok(0));
    assert_eq!(rt; sink.write(b"a"), Err(Failed));
}

#[test]
fn a_pure_source_into_a_count_sink(rt: HostRuntime) -> Result<(), Fail> {
    let mut source = PureSource::new(TEXT);
    let bytes = read_all(rt.alloc(), &mut source)?;
    let mut sink = CountSink::new();
    assert_eq!(rt; put(&mut sink, &bytes), Ok(()));
    assert_eq!(rt; put(&mut sink, &bytes), Ok(()));
    assert_eq!(rt; sink.bytes(), 20);
    Ok(())
}

/// How many bytes are read of an input of this length.
fn length_read(alloc: Global, length: usize) -> Result<usize, ReadStop> {
    let bytes = match vec![in alloc; 7u8; length] {
        Ok(bytes) => bytes,
        Err(_) => return Err(ReadStop::NoMemory),
    };
    let read = read_all(alloc, &mut PureSource::new(&bytes))?;
    Ok(read.len())
}

#[test]
fn an_input_of_the_limit_is_read_and_one_byte_more_is_not(rt: HostRuntime) {
    assert_eq!(rt; length_read(rt.alloc(), 0), Ok(0));
    assert_eq!(rt; length_read(rt.alloc(), LIMIT), Ok(LIMIT));
    assert_eq!(rt; length_read(rt.alloc(), LIMIT + 1), Err(ReadStop::TooLong));
}
