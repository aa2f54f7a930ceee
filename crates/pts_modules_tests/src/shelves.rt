// Shelves.

ghost use Rattle.std.specs.Prelude.{◌≡◌, None};
ghost use Rattle.pts_modules.specs.Shelves.{file_among};

use pts_modules::{Name, Shelf};
use std::alloc::{AllocError, Global};

/// A copy of these bytes.
pub fn copied(alloc: Global, bytes: &[u8]) -> Result<Vec<u8>, AllocError> {
    let mut copy = Vec::new(alloc);
    for byte in bytes {
        copy.push(*byte)?;
    }
    Ok(copy)
}

/// Puts the file of a module on a shelf that has none of this name.
pub fn put(alloc: Global, shelf: &mut Shelf, name: &str, text: &str) -> Option<()> {
    let name = Name::read(alloc, name).ok()?;
    let bytes = copied(alloc, text.as_bytes()).ok()?;
    match shelf.module(&name) {
        None => shelf.add_module(name, bytes).ok(),
        Some(_) => None,
    }
}

fn put_certificate(alloc: Global, shelf: &mut Shelf, name: &str, text: &str) -> Option<()> {
    let name = Name::read(alloc, name).ok()?;
    let bytes = copied(alloc, text.as_bytes()).ok()?;
    match shelf.certificate(&name) {
        None => shelf.add_certificate(name, bytes).ok(),
        Some(_) => None,
    }
}

// The modules `a` and `b`, and the certificate `a`.
fn filled(alloc: Global) -> Option<Shelf> {
    let mut shelf = Shelf::new(alloc);
    put(alloc, &mut shelf, "a", "first")?;
    put(alloc, &mut shelf, "b", "second")?;
    put_certificate(alloc, &mut shelf, "a", "third")?;
    Some(shelf)
}

fn has_files(alloc: Global, shelf: &Shelf) -> Option<bool> {
    let (a, b) = (Name::read(alloc, "a").ok()?, Name::read(alloc, "b").ok()?);
    Some(
        shelf.module(&a) == Some("first".as_bytes())
            && shelf.module(&b) == Some("second".as_bytes())
            && shelf.certificate(&a) == Some("third".as_bytes())
            && shelf.certificate(&b).is_none(),
    )
}

#[test]
fn files_are_found_by_their_names(rt: HostRuntime) {
    let alloc = rt.alloc();
    match filled(alloc) {
        Some(shelf) => assert!(rt; has_files(alloc, &shelf) == Some(true)),
        None => assert!(rt; false),
    }
}
