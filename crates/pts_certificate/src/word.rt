ghost use Rattle.std.specs.Prelude.{◌≡◌};
ghost use Rattle.pts_certificate.specs.Calls.{Answers};
ghost use Rattle.pts_certificate.specs.Rows.{word_where, is_name, is_binder, is_spelling};
ghost use Rattle.pts_certificate.specs.Rows as format;

use crate::fault::LineFault;
use crate::split::Words;
use pts_bytes::text_of;
use pts_ctx::Name;
use pts_names::{NameFault, SortName, SortNameFault};
use std::alloc::Global;

/// The spelling of a sort that a word is.
pub(crate) fn spelling_of(alloc: Global, word: &[u8]) -> Result<SortName, LineFault>
    ensures { Answers result (word_where is_spelling word.now) }
{
    let Some(text) = text_of(word) else {
        return Err(LineFault::BadLine);
    };
    match SortName::read(alloc, text) {
        Ok(spelling) => Ok(spelling),
        Err(SortNameFault::BadSpelling) => Err(LineFault::BadLine),
        Err(SortNameFault::Memory) => Err(LineFault::Memory),
    }
}

/// The name that a word is.
pub(crate) fn name_of(alloc: Global, word: &[u8]) -> Result<Name, LineFault>
    ensures { Answers result (word_where is_name word.now) }
{
    let Some(text) = text_of(word) else {
        return Err(LineFault::BadLine);
    };
    match Name::read(alloc, text) {
        Ok(name) => Ok(name),
        Err(NameFault::Memory) => Err(LineFault::Memory),
        Err(_) => Err(LineFault::BadLine),
    }
}

/// The name of one part that a word is.
pub(crate) fn binder_of(alloc: Global, word: &[u8]) -> Result<Name, LineFault>
    ensures { Answers result (word_where is_binder word.now) }
{
    let name = name_of(alloc, word)?;
    if name.parts() != 1 {
        return Err(LineFault::BadLine);
    }
    Ok(name)
}

/// The name that is the only field of a line.
pub(crate) fn name_row(alloc: Global, mut fields: Words) -> Result<Name, LineFault>
    ensures { Answers result (format.name_row fields.entry) }
{
    let word = fields.field()?;
    fields.end()?;
    name_of(alloc, word)
}
