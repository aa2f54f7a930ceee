ghost use Rattle.std.specs.Prelude.{◌≡◌};
ghost use Rattle.pts_certificate.specs.Calls.{Answers, AnswersAs};
ghost use Rattle.pts_certificate.specs.Rows as format;
ghost use Rattle.pts_certificate.specs.Seen.{spelled};

use crate::fault::LineFault;
use crate::sorts::Sorts;
use crate::split::Words;
use crate::word::spelling_of;
use pts_bytes::is_text;
use pts_names::SortName;
use std::alloc::Global;

/// The lists of a system as they are read.
#[derive(Drop)]
pub(crate) struct Lists {
    pub(crate) sorts: Sorts,
    pub(crate) axioms: Vec<(SortName, SortName)>,
    pub(crate) rules: Vec<(SortName, SortName, SortName)>,
}

/// The line `sorts S1 S2 ..`.
pub(crate) fn sorts_row(alloc: Global, word: &[u8], fields: Words) -> Result<Lists, LineFault>
    ensures { AnswersAs spelled result (format.sorts_row word.now fields.entry) }
{
    if !is_text(word, "sorts") {
        return Err(LineFault::BadLine);
    }
    Ok(Lists {
        sorts: spellings(alloc, fields)?,
        axioms: Vec::new(alloc),
        rules: Vec::new(alloc),
    })
}

/// The line `axiom S1 S2`, by its fields.
pub(crate) fn axiom_row(alloc: Global, mut lists: Lists, fields: Words) -> Result<Lists, LineFault>
    ensures { AnswersAs spelled result (format.axiom_row (spelled lists) fields.entry) }
{
    let axiom = lists.sorts.two(alloc, fields)?;
    lists.axioms.push(axiom)?;
    Ok(lists)
}

/// The line `rule S1 S2 S3`, by its fields.
pub(crate) fn rule_row(alloc: Global, mut lists: Lists, fields: Words) -> Result<Lists, LineFault>
    ensures { AnswersAs spelled result (format.rule_row (spelled lists) fields.entry) }
{
    let rule = lists.sorts.three(alloc, fields)?;
    lists.rules.push(rule)?;
    Ok(lists)
}

/// The spellings that the words are.
fn spellings(alloc: Global, mut words: Words) -> Result<Sorts, LineFault>
    ensures { Answers result (format.spellings words.entry) }
{
    let mut sorts = Sorts::none(alloc);
    while let Some(word) = words.next() {
        sorts = sorts.with(spelling_of(alloc, word)?)?;
    }
    Ok(sorts)
}
