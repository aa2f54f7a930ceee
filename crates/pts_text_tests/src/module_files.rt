use pts_module_file::{FileFault, FileWhy, ModuleFile, read_module};
use pts_names::Name;
use pts_parser::{Kind, ReadFault};
use pts_samples::prints;
use std::alloc::Global;

fn module_m(alloc: Global, text: &str) -> Result<ModuleFile, FileFault> {
    match Name::read(alloc, "m") {
        Ok(name) => read_module(alloc, &name, text.as_bytes()),
        Err(_) => Err(FileFault::Memory),
    }
}

fn is_whole(read: &Result<ModuleFile, FileFault>) -> bool {
    match read {
        Ok(module) => module.uses.len() == 1
            && module.parameters.len() == 1
            && module.declarations.len() == 2,
        Err(_) => false,
    }
}

fn breaks_at(read: &Result<ModuleFile, FileFault>, line: usize) -> bool {
    match read {
        Err(FileFault::BadFile(number, FileWhy::Form)) => *number == line,
        _ => false,
    }
}

fn is_refused_for(read: &Result<ModuleFile, FileFault>, kind: Kind) -> bool {
    match read {
        Err(FileFault::BadFile(3, FileWhy::Read(ReadFault::Expected(_, wanted)))) => *wanted
            == kind,
        _ => false,
    }
}

#[test]
fn a_file_is_read(rt: HostRuntime) {
    let text =
        "% a file\n\nyarrow-module 1\r\nmodule m\nuses l\nparameter A : *\n\tassume a:A\ndefine b := a\nend\n%";
    assert!(rt; is_whole(&module_m(rt.alloc(), text)));
}

#[test]
fn the_first_line_that_breaks_it_is_named(rt: HostRuntime) {
    let refusals = [
        ("", 1),
        ("yarrow-module 1", 2),
        ("yarrow-module 1\nmodule n\nend", 2),
        ("yarrow-module 1\nmodule m\n ", 3),
        ("yarrow-module 1\nmodule m\nassume a : *\nparameter & b", 4),
        ("yarrow-module 1\nmodule m\ndefine.k := *", 3),
        ("yarrow-module 1\nmodule m\nend\nend", 4),
        ("yarrow-module 1\nmodule m\nend\r", 3),
    ];
    for (text, line) in refusals {
        assert!(rt; breaks_at(&module_m(rt.alloc(), text), line));
    }
}

#[test]
fn a_declaration_is_refused_as_a_line(rt: HostRuntime) {
    let text = "yarrow-module 1\nmodule m\ndefine f : *";
    assert!(rt; is_refused_for(&module_m(rt.alloc(), text), Kind::Assign));
}

#[test]
fn it_is_printed_why_a_line_breaks_the_format(rt: HostRuntime) {
    assert!(rt; prints(rt.alloc(), &FileWhy::Form, "Form"));
    let read = FileWhy::Read(ReadFault::BadChar(7));
    assert!(rt; prints(rt.alloc(), &read, "BadChar 7"));
}
