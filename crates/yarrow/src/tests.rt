use crate::batch::BUDGET;
use crate::enter::{Entrance, enter_all};
use crate::format::run_format;
use crate::run::{LIMIT, run, run_check};
use pts_certificate::{Certificate, read_certificate};
use pts_ctx::ROOM;
use pts_io::{MemoryLibrary, MemorySink, MemorySource};
use std::alloc::{AllocError, Global};

/// The declaration `x` of the sort `*`, in a system with `* : #`.
const AXIOM: &str =
    "yarrow-certificate 1\nsorts * #\naxiom * #\ndefine x\nt sort *\nt sort #\nn empty\nn sort 0 0 1\nqed\nend\n";

#[test]
fn the_limits_are_those_of_the_manual(rt: HostRuntime) {
    assert!(rt; LIMIT == 16 * 1024 * 1024 && ROOM == 200_000 && BUDGET == 1_000_000);
}

fn entered(alloc: Global, certificate: Certificate) -> Result<Entrance, AllocError> {
    let Certificate {
        system,
        declarations,
    } = certificate;
    enter_all(alloc, &system, declarations.into_vec())
}

fn has_one_entry(entrance: &Result<Entrance, AllocError>) -> bool {
    match entrance {
        Ok(entrance) => entrance.refusal.is_none() && entrance.context.len() == 1,
        Err(_) => false,
    }
}

#[test]
fn a_declaration_enters_the_empty_context(rt: HostRuntime) {
    match read_certificate(rt.alloc(), AXIOM.as_bytes()) {
        Ok(certificate) => {
            assert!(rt; has_one_entry(&entered(rt.alloc(), certificate)));
        }
        Err(_) => assert!(rt; false),
    }
}

// Gives one byte in a call.
fn source_of(alloc: Global, text: &str) -> Result<MemorySource, AllocError> {
    let bytes = Vec::from_slice(alloc, text.as_bytes())?;
    Ok(MemorySource::new(bytes, 1, Vec::new(alloc)))
}

fn sink_of(alloc: Global) -> Result<MemorySink, AllocError> {
    MemorySink::new(alloc, 100, Vec::new(alloc))
}

fn status(alloc: Global, words: &[String], source: &mut MemorySource, sink: &mut MemorySink) -> u8 {
    let mut library = MemoryLibrary::new(Vec::new(alloc), Vec::new(alloc));
    run(alloc, words, source, sink, &mut library).status
}

fn answers(alloc: Global, words: &[String], wanted: u8, line: &str) -> Result<bool, AllocError> {
    let mut source = source_of(alloc, AXIOM)?;
    let mut sink = sink_of(alloc)?;
    let status = status(alloc, words, &mut source, &mut sink);
    Ok(status == wanted && sink.bytes() == line.as_bytes())
}

fn words_of(alloc: Global, word: &str) -> Option<Vec<String>> {
    let mut words = Vec::new(alloc);
    words.push(String::from_str(alloc, word).ok()?).ok()?;
    Some(words)
}

#[test]
fn the_word_check_checks_and_another_has_no_form(rt: HostRuntime) {
    match words_of(rt.alloc(), "check") {
        Some(words) => {
            assert!(rt; matches!(answers(rt.alloc(), &words, 0, "valid 1\n"), Ok(true)));
            assert!(rt; matches!(answers(rt.alloc(), &[], 2, "usage\n"), Ok(true)));
        }
        None => assert!(rt; false),
    }
}

fn check_status(alloc: Global, source: &mut MemorySource, sink: &mut MemorySink) -> u8 {
    run_check(alloc, source, sink).status
}

fn refuses_no_text(alloc: Global) -> Result<bool, AllocError> {
    let mut source = source_of(alloc, "")?;
    let mut sink = sink_of(alloc)?;
    let status = check_status(alloc, &mut source, &mut sink);
    Ok(status == 1 && sink.bytes() == b"unreadable Truncated\n".as_slice())
}

#[test]
fn a_text_that_is_no_certificate_is_unreadable(rt: HostRuntime) {
    assert!(rt; matches!(refuses_no_text(rt.alloc()), Ok(true)));
}

// The library with the file `one`, a system with one sort.
fn library_of(alloc: Global) -> Option<MemoryLibrary> {
    let name = String::from_str(alloc, "one").ok()?;
    let bytes = Vec::from_slice(alloc, b"sorts = ['*']\naxioms = []\nrules = []\n").ok()?;
    let mut files = Vec::new(alloc);
    files.push((name, bytes)).ok()?;
    Some(MemoryLibrary::new(files, Vec::new(alloc)))
}

fn format_words(alloc: Global, name: &str) -> Option<Vec<String>> {
    let mut words = words_of(alloc, "format")?;
    words.push(String::from_str(alloc, name).ok()?).ok()?;
    Some(words)
}

fn formats(alloc: Global, name: &str, wanted: u8, output: &str) -> Option<bool> {
    let words = format_words(alloc, name)?;
    let mut library = library_of(alloc)?;
    let mut source = source_of(alloc, "(\\x:(*). (x))\n\n*\r\n#").ok()?;
    let mut sink = sink_of(alloc).ok()?;
    let status = run(alloc, &words, &mut source, &mut sink, &mut library).status;
    Some(status == wanted && sink.bytes() == output.as_bytes())
}

#[test]
fn lines_are_formatted_in_the_system_that_is_named(rt: HostRuntime) {
    let lines = "\\x:*. x\nrefused Expected 0 Term\n*\nrefused UnknownSort 0 #\n";
    assert!(rt; matches!(formats(rt.alloc(), "one", 0, lines), Some(true)));
    assert!(rt; matches!(formats(rt.alloc(), "two", 6, "no file two\n"), Some(true)));
    assert!(rt; matches!(formats(rt.alloc(), "", 2, "usage\n"), Some(true)));
}

// The source fails at its second call, in the midst of a line.
fn fails_behind_a_line(alloc: Global) -> Option<bool> {
    let mut calls = Vec::new(alloc);
    calls.push(2).ok()?;
    let bytes = Vec::from_slice(alloc, b"*\n*").ok()?;
    let mut source = MemorySource::new(bytes, 3, calls);
    let mut library = library_of(alloc)?;
    let mut sink = sink_of(alloc).ok()?;
    let status = run_format(alloc, "one", &mut source, &mut sink, &mut library).status;
    Some(status == 4 && sink.bytes() == b"*\nread failed\n".as_slice())
}

#[test]
fn what_was_read_before_a_failure_is_answered(rt: HostRuntime) {
    assert!(rt; matches!(fails_behind_a_line(rt.alloc()), Some(true)));
}

/// Two identities, the second by way of the first.
const IDENTITIES: &str =
    "yarrow-module 1\nmodule id\ndefine id : @A:*. A -> A := \\A:*. \\x:A. x\ndefine self : @A:*. A -> A := id (@A:*. A -> A) id\nend\n";

fn file_of(alloc: Global, name: &str, text: &str) -> Option<(String, Vec<u8>)> {
    let name = String::from_str(alloc, name).ok()?;
    let bytes = Vec::from_slice(alloc, text.as_bytes()).ok()?;
    Some((name, bytes))
}

// The library with the file `full`, a system with all rules for its two sorts, and the file of the module `id`.
fn library_with(alloc: Global, module: &str) -> Option<MemoryLibrary> {
    let system =
        "sorts = ['*', '#']\naxioms = [['*', '#']]\nrules = [['*', '*'], ['#', '*'], ['*', '#'], ['#', '#']]\n";
    let mut files = Vec::new(alloc);
    files.push(file_of(alloc, "full", system)?).ok()?;
    files.push(file_of(alloc, "id.yar", module)?).ok()?;
    Some(MemoryLibrary::new(files, Vec::new(alloc)))
}

fn batch_words(alloc: Global, name: &str) -> Option<Vec<String>> {
    let mut words = words_of(alloc, "batch")?;
    words.push(String::from_str(alloc, "full").ok()?).ok()?;
    words.push(String::from_str(alloc, name).ok()?).ok()?;
    Some(words)
}

fn batch_status(alloc: Global, module: &str, name: &str, sink: &mut MemorySink) -> Option<u8> {
    let words = batch_words(alloc, name)?;
    let mut library = library_with(alloc, module)?;
    let mut source = source_of(alloc, "").ok()?;
    Some(run(alloc, &words, &mut source, sink, &mut library).status)
}

fn batches(alloc: Global, module: &str, name: &str, wanted: u8, output: &str) -> Option<bool> {
    let mut sink = sink_of(alloc).ok()?;
    let status = batch_status(alloc, module, name, &mut sink)?;
    Some(status == wanted && sink.bytes() == output.as_bytes())
}

#[test]
fn declarations_are_printed_with_their_types(rt: HostRuntime) {
    let lines = "id.id : @A:*. A -> A\nid.self : @A:*. A -> A\ndone 2\n";
    assert!(rt; matches!(batches(rt.alloc(), IDENTITIES, "id", 0, lines), Some(true)));
}

#[test]
fn a_module_is_refused_with_its_line(rt: HostRuntime) {
    let module = "yarrow-module 1\nmodule id\ndefine k := #\nend\n";
    let line = "refused id Declaration 3 term - NoAxiom #\n";
    assert!(rt; matches!(batches(rt.alloc(), module, "id", 1, line), Some(true)));
}

#[test]
fn a_module_without_a_file_is_named_by_its_file(rt: HostRuntime) {
    let line = "no file nofile.yar\n";
    assert!(rt; matches!(batches(rt.alloc(), "", "nofile", 6, line), Some(true)));
}

// The sink fails at its second call.
fn fails_behind_a_declaration(alloc: Global) -> Option<bool> {
    let mut calls = Vec::new(alloc);
    calls.push(2).ok()?;
    let mut sink = MemorySink::new(alloc, 100, calls).ok()?;
    let status = batch_status(alloc, IDENTITIES, "id", &mut sink)?;
    Some(status == 5 && sink.bytes() == b"id.id : @A:*. A -> A\n".as_slice())
}

#[test]
fn what_was_written_before_a_failure_is_a_whole_line(rt: HostRuntime) {
    assert!(rt; matches!(fails_behind_a_declaration(rt.alloc()), Some(true)));
}

fn replay_words(alloc: Global) -> Option<Vec<String>> {
    let mut words = words_of(alloc, "replay")?;
    words.push(String::from_str(alloc, "full").ok()?).ok()?;
    Some(words)
}

fn replay_status(alloc: Global, input: &str, sink: &mut MemorySink) -> Option<u8> {
    let words = replay_words(alloc)?;
    let mut library = library_with(alloc, "")?;
    let mut source = source_of(alloc, input).ok()?;
    Some(run(alloc, &words, &mut source, sink, &mut library).status)
}

fn replays(alloc: Global, input: &str, output: &str) -> Option<bool> {
    let mut sink = MemorySink::new(alloc, 1_000, Vec::new(alloc)).ok()?;
    let status = replay_status(alloc, input, &mut sink)?;
    Some(status == 0 && sink.bytes() == output.as_bytes())
}

/// Both sessions declare the same name, and the first commits it before the second looks, or after.
#[test]
fn a_round_is_played_in_the_order_that_is_asked_for(rt: HostRuntime) {
    let input =
        "@1 assume A : *\n@1 commit\n@2 look\n@2 assume A : *\n@2 commit\n@1 look\ngo 2 1 2 1\n";
    let output =
        "@1 assumed A : *\n@1 committed 0 1\n@1 seen 1\n@2 seen 0\n@2 assumed A : *\n@2 refused Clash A 0\norder 2 1 2 1\ndone 1\n";
    assert!(rt; matches!(replays(rt.alloc(), input, output), Some(true)));
    let input =
        "@1 assume A : *\n@1 commit\n@2 look\n@2 assume A : *\n@2 commit\n@1 look\ngo 1 2 1 2\n";
    let output =
        "@1 assumed A : *\n@1 committed 0 1\n@1 seen 1\n@2 seen 1\n@2 refused Taken A 0\n@2 refused NothingToCommit\norder 1 2 1\ndone 1\n";
    assert!(rt; matches!(replays(rt.alloc(), input, output), Some(true)));
}

#[test]
fn lines_of_no_session_are_refused_at_once(rt: HostRuntime) {
    let input = "@65 look\n@1\n@1 look\nend\n@1 look\n";
    let output = "refused line 1\nrefused line 2\n@1 seen 0\norder 1\ndone 1\n";
    assert!(rt; matches!(replays(rt.alloc(), input, output), Some(true)));
}
