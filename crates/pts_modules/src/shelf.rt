// Shelves.

ghost use Rattle.std.specs.Prelude.{◌≡◌, ◌∷◌, ◌++◌, [], None, Some, OnOk, OnErr, MatchOption};
ghost use Rattle.pts_modules.specs.Shelves.{file_among, files_of, with_certificate, with_module};

use pts_names::Name;
use std::alloc::{AllocError, Global};
use std::marker::Model;

/// The files of a library, as bytes under their names: those of modules, and those of certificates.
#[derive(Drop)]
pub struct Shelf {
    modules: Vec<(Name, Vec<u8>)>,
    certificates: Vec<(Name, Vec<u8>)>,
}

impl Model for Shelf {
    ghost use Rattle.pts_modules.specs.Shelves.{Files, files_of};

    ghost Value = { Files };

    ghost view = { λ s. record { modules = files_of s.modules.items; certificates = files_of s.certificates.items } };
}

impl Shelf {
    /// A shelf without files.
    pub fn new(alloc: Global) -> Shelf
        ensures modules { result.modules ≡ [] }
        ensures certificates { result.certificates ≡ [] }
    {
        Shelf {
            modules: Vec::new(alloc),
            certificates: Vec::new(alloc),
        }
    }

    /// Puts the file of a module on the shelf, which has none of this name.
    ///
    /// # Errors
    ///
    /// Out of memory. The shelf is as before.
    pub fn add_module(&mut self, name: Name, bytes: Vec<u8>) -> Result<(), AllocError>
        requires { file_among self.old.modules name ≡ None }
        ensures added { OnOk result (self.new ≡ with_module self.old name bytes.items) }
        ensures unchanged { OnErr result (self.new ≡ self.old) }
    {
        self.modules.push((name, bytes))?;
        Ok(())
    }

    /// The same of a certificate.
    ///
    /// # Errors
    ///
    /// Out of memory. The shelf is as before.
    pub fn add_certificate(&mut self, name: Name, bytes: Vec<u8>) -> Result<(), AllocError>
        requires { file_among self.old.certificates name ≡ None }
        ensures added { OnOk result (self.new ≡ with_certificate self.old name bytes.items) }
        ensures unchanged { OnErr result (self.new ≡ self.old) }
    {
        self.certificates.push((name, bytes))?;
        Ok(())
    }

    /// The file of the module with this name. All files are looked at in turn.
    pub fn module(&self, name: &Name) -> Option<&[u8]>
        ensures { MatchOption result (file_among self.now.modules name.now ≡ None) (λ bytes. file_among self.now.modules name.now ≡ Some bytes.now) }
    {
        file_in(&self.modules, name)
    }

    /// The file of the certificate with this name. All files are looked at in turn.
    pub fn certificate(&self, name: &Name) -> Option<&[u8]>
        ensures { MatchOption result (file_among self.now.certificates name.now ≡ None) (λ bytes. file_among self.now.certificates name.now ≡ Some bytes.now) }
    {
        file_in(&self.certificates, name)
    }
}

// The file with this name.
fn file_in<'a>(files: &'a [(Name, Vec<u8>)], name: &Name) -> Option<&'a [u8]>
    ensures { MatchOption result (file_among (files_of files.now) name.now ≡ None) (λ bytes. file_among (files_of files.now) name.now ≡ Some bytes.now) }
{
    for file in files {
        if file.0.same(name) {
            return Some(file.1.as_slice());
        }
    }
    None
}
