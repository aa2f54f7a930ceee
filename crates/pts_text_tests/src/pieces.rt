use pts_io::{
    Fail, MemorySink, MemorySource, Sink, Source, StdSink, StdSource, WholeFault, read_whole,
    write_whole,
};
use std::alloc::{AllocError, Global};

// Thirteen bytes, five in a call; the second call fails.
fn words(alloc: Global) -> Result<MemorySource, AllocError> {
    let bytes = Vec::from_slice(alloc, b"one two three")?;
    let fail_at = Vec::from_slice(alloc, &[2])?;
    Ok(MemorySource::new(bytes, 5, fail_at))
}

fn read(alloc: Global, source: &mut MemorySource, limit: usize) -> Result<Vec<u8>, WholeFault> {
    read_whole(alloc, source, limit)
}

fn take(source: &mut MemorySource) -> Result<usize, Fail> {
    source.take(&mut [0; 2])
}

fn is_read(answer: &Result<Vec<u8>, WholeFault>, bytes: &[u8]) -> bool {
    match answer {
        Ok(found) => found.as_slice() == bytes,
        Err(_) => false,
    }
}

#[test]
fn a_source_is_read_whole_up_to_the_limit(rt: HostRuntime) {
    match words(rt.alloc()) {
        Ok(mut source) => {
            assert!(rt; take(&mut source) == Ok(2));
            assert!(rt; take(&mut source) == Err(Fail::Failed));
            let refused = read(rt.alloc(), &mut source, 4);
            assert!(rt; matches!(refused, Err(WholeFault::TooMuch)));
            assert!(rt; is_read(&read(rt.alloc(), &mut source, 100), b" three"));
        }
        Err(_) => assert!(rt; false),
    }
}

// Room for eight bytes; the second call fails.
fn small_sink(alloc: Global) -> Result<MemorySink, AllocError> {
    MemorySink::new(alloc, 8, Vec::from_slice(alloc, &[2])?)
}

fn write(sink: &mut MemorySink, bytes: &[u8]) -> Result<(), Fail> {
    write_whole(sink, bytes)
}

fn put(sink: &mut MemorySink, bytes: &[u8]) -> Result<usize, Fail> {
    sink.put(bytes)
}

#[test]
fn a_sink_takes_what_it_has_room_for(rt: HostRuntime) {
    match small_sink(rt.alloc()) {
        Ok(mut sink) => {
            assert!(rt; write(&mut sink, b"one ") == Ok(()));
            assert!(rt; write(&mut sink, b"two") == Err(Fail::Failed));
            assert!(rt; put(&mut sink, b"three") == Ok(4));
            assert!(rt; sink.bytes() == b"one thre".as_slice());
        }
        Err(_) => assert!(rt; false),
    }
}

#[test]
fn standard_input_and_output_are_a_source_and_a_sink(rt: HostRuntime) {
    let mut source = StdSource::new(rt.stdin());
    let mut sink = StdSink::new(rt.stdout());
    assert!(rt; source.take(&mut []).is_ok());
    assert!(rt; sink.put(b"") == Ok(0));
}
