use pts_io::{Input, LineReader, MemorySource, ReadFail};
use std::alloc::{AllocError, Global};

fn source_of(alloc: Global, text: &[u8]) -> Result<MemorySource, AllocError> {
    let bytes = Vec::from_slice(alloc, text)?;
    Ok(MemorySource::new(bytes, 3, Vec::new(alloc)))
}

fn next(reader: &mut LineReader, source: &mut MemorySource) -> Result<Input, ReadFail> {
    reader.next(source)
}

fn is_text(answer: &Result<Input, ReadFail>, line: &str) -> bool {
    match answer {
        Ok(Input::Text(text)) => text.as_str() == line,
        _ => false,
    }
}

fn are_answered(reader: &mut LineReader, source: &mut MemorySource) -> bool {
    is_text(&next(reader, source), "one")
        && is_text(&next(reader, source), "two\r")
        && matches!(next(reader, source), Ok(Input::Bad))
        && matches!(next(reader, source), Ok(Input::TooMuch))
}

fn reads_lines(alloc: Global) -> Result<bool, AllocError> {
    let mut source = source_of(alloc, b"one\r\ntwo\r\r\n\xff\nfour")?;
    let mut reader = LineReader::new(alloc, 15)?;
    Ok(are_answered(&mut reader, &mut source))
}

#[test]
fn lines_are_answered_up_to_the_limit(rt: HostRuntime) {
    assert!(rt; matches!(reads_lines(rt.alloc()), Ok(true)));
}
