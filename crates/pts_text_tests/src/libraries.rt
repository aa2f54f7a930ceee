use pts_io::{FILE_LIMIT, FolderLibrary, Found, Library, MemoryLibrary, ReadFail};
use std::alloc::Global;
use std::fs::OpenFile;
use std::{env, fs, process};

fn file(alloc: Global, name: &str, text: &str) -> Option<(String, Vec<u8>)> {
    let name = String::from_str(alloc, name).ok()?;
    let bytes = Vec::from_slice(alloc, text.as_bytes()).ok()?;
    Some((name, bytes))
}

// Two files of one name; the second call fails.
fn one_name(alloc: Global) -> Option<MemoryLibrary> {
    let mut files = Vec::new(alloc);
    files.push(file(alloc, "a", "one")?).ok()?;
    files.push(file(alloc, "a", "two")?).ok()?;
    Some(MemoryLibrary::new(files, Vec::from_slice(alloc, &[2]).ok()?))
}

fn read<L: Library>(library: &mut L, alloc: Global, name: &str) -> Result<Found, ReadFail> {
    library.read(alloc, name)
}

fn is_found(answer: &Result<Found, ReadFail>, bytes: &[u8]) -> bool {
    match answer {
        Ok(Found::Bytes(found)) => found.as_slice() == bytes,
        _ => false,
    }
}

#[test]
fn the_first_file_of_a_name_counts(rt: HostRuntime) {
    match one_name(rt.alloc()) {
        Some(mut library) => {
            assert!(rt; is_found(&read(&mut library, rt.alloc(), "a"), b"one"));
            let failed = read(&mut library, rt.alloc(), "a");
            assert!(rt; matches!(failed, Err(ReadFail::Failed)));
            let missing = read(&mut library, rt.alloc(), "c");
            assert!(rt; matches!(missing, Ok(Found::NoFile)));
        }
        None => assert!(rt; false),
    }
}

// A name in the folder for temporary files that no other process has.
fn own_name(rt: &HostRuntime) -> Option<String> {
    let id = process::id(rt.process());
    let file = format!(in rt.alloc(); "yarrow_tests_{id}").ok()?;
    let folder = env::temp_dir(rt).ok()?;
    let path = folder.join(rt.alloc(), file.as_str()).ok()?;
    String::from_str(rt.alloc(), path.as_path().to_str()?).ok()
}

// A file of this name with three bytes.
fn write_short(rt: &HostRuntime, name: &str) -> bool {
    fs::write(rt, name, "one").is_ok()
}

// The same file with a byte more than the limit.
fn write_long(rt: &HostRuntime, name: &str) -> bool {
    match fs::create(rt, name) {
        Ok(file) => file.set_len(FILE_LIMIT as u64 + 1).is_ok(),
        Err(_) => false,
    }
}

#[test]
fn a_folder_is_a_library(rt: HostRuntime) {
    let alloc = rt.alloc();
    match own_name(&rt) {
        Some(name) => {
            let mut library = FolderLibrary::new(rt);
            assert!(rt; write_short(&rt, name.as_str()));
            assert!(rt; is_found(&read(&mut library, alloc, name.as_str()), b"one"));
            assert!(rt; write_long(&rt, name.as_str()));
            let long = read(&mut library, alloc, name.as_str());
            assert!(rt; matches!(long, Ok(Found::TooLong)));
            assert!(rt; fs::remove_file(&rt, name.as_str()).is_ok());
            let missing = read(&mut library, alloc, name.as_str());
            assert!(rt; matches!(missing, Ok(Found::NoFile)));
            let failed = read(&mut library, alloc, ".");
            assert!(rt; matches!(failed, Err(ReadFail::Failed)));
        }
        None => assert!(rt; false),
    }
}
