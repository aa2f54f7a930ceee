use pts_ctx::System;
use pts_format::{
    Ended, format_lines, lines_have_one_answer, printed_lines_are_read_back, texts_have_one_answer,
};
use pts_io::{MemorySink, MemorySource};
use pts_samples::simple;
use std::alloc::Global;

/// A law is a function that does nothing.
#[test]
fn the_laws_of_lines_can_be_called() {
    lines_have_one_answer();
    texts_have_one_answer();
    printed_lines_are_read_back();
}

/// Four lines, of which the third is no text.
const LINES: &[u8] = b"\\x:(*). (x)\n(\n\xff\n'x";

// Gives three bytes in a call; this call fails, if it is not 0.
fn source_of(alloc: Global, fails: u64) -> Option<MemorySource> {
    let bytes = Vec::from_slice(alloc, LINES).ok()?;
    let calls = Vec::from_slice(alloc, &[fails]).ok()?;
    Some(MemorySource::new(bytes, 3, calls))
}

fn sink_of(alloc: Global, fails: u64) -> Option<MemorySink> {
    let calls = Vec::from_slice(alloc, &[fails]).ok()?;
    MemorySink::new(alloc, 100, calls).ok()
}

fn formatted(
    alloc: Global,
    system: &System,
    source: &mut MemorySource,
    sink: &mut MemorySink,
    limit: u32,
) -> Ended {
    format_lines(alloc, system, source, sink, limit)
}

// Whether the lines end so, and are answered so, where the calls with these numbers fail.
fn formats(
    alloc: Global,
    limit: u32,
    fails: (u64, u64),
    ended: Ended,
    output: &[u8],
) -> Option<bool> {
    let system = simple(alloc)?;
    let mut source = source_of(alloc, fails.0)?;
    let mut sink = sink_of(alloc, fails.1)?;
    let how = formatted(alloc, &system, &mut source, &mut sink, limit);
    Some(how == ended && sink.bytes() == output)
}

#[test]
fn each_line_is_answered_by_its_term_or_its_refusal(rt: HostRuntime) {
    let alloc = rt.alloc();
    let all =
        b"\\x:*. x\nrefused Expected 1 Term\nrefused line 3\nrefused UnknownSort 0 'x\n".as_slice();
    assert!(rt; formats(alloc, 99, (0, 0), Ended::Whole, all) == Some(true));
    let first = b"\\x:*. x\n".as_slice();
    assert!(rt; formats(alloc, 13, (0, 0), Ended::TooMuch, first) == Some(true));
    assert!(rt; formats(alloc, 99, (5, 0), Ended::ReadFailed, first) == Some(true));
    assert!(rt; formats(alloc, 99, (0, 2), Ended::WriteFailed, first) == Some(true));
}
