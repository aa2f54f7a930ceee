// What stands at the keys of a document.

ghost use Rattle.std.specs.Prelude.{◌≡◌, Err};
ghost use Rattle.std.specs.Option.{option_map};
ghost use Rattle.toml.specs.Data.{get_member};
ghost use Rattle.toml.specs.View.{view, table_view};
ghost use Rattle.pts_ctx.specs.System.{written};
ghost use Rattle.pts_ctx.specs.declared.system.SystemFault.{SystemFault};
ghost use Rattle.pts_spec.specs.declared.fault.SpecFault.{SpecFault};
ghost use Rattle.pts_spec.specs.Calls.{AnswersAs};
ghost use Rattle.pts_spec.specs.Shapes as shapes;
ghost use Rattle.pts_spec.specs.SpecFile.{spelled_in, least_other, UnlessMemory};
ghost use Rattle.pts_spec.specs.SpecFile as file;

use crate::fault::{KeyFault, SpecFault};
use crate::list::{Item, list_of};
use pts_names::{SortName, Text};
use std::alloc::Global;
use toml::{Table, Value};

/// The lists that a document writes.
#[derive(Drop)]
pub(crate) struct KeyLists {
    pub(crate) sorts: Vec<SortName>,
    pub(crate) axioms: Vec<(SortName, SortName)>,
    pub(crate) rules: Vec<(SortName, SortName, SortName)>,
}

/// The lists at the three keys, where the document has no other key.
#[tactic(auto, unfolding(crate::specs::SpecFile::spelled_in))]
pub(crate) fn lists_in(alloc: Global, document: &Table) -> Result<KeyLists, SpecFault>
    ensures lists { AnswersAs (λ lists. written lists.sorts.items lists.axioms.items lists.rules.items) result (spelled_in (table_view document.now)) }
    ensures memory { ¬ (result ≡ Err (SpecFault.System SystemFault.Memory)) }
{
    let sorts = list_at(alloc, document, "sorts")?;
    let axioms = list_at(alloc, document, "axioms")?;
    let rules = list_at(alloc, document, "rules")?;
    if let Some(key) = least_other(document) {
        return Err(misshapen(alloc, key));
    }
    Ok(KeyLists {
        sorts,
        axioms,
        rules,
    })
}

/// The list of items that stands at a key.
fn list_at<T: Item>(alloc: Global, document: &Table, key: &str) -> Result<Vec<T>, SpecFault>
    ensures list { AnswersAs (λ list. list.items) result (file.at_key key.now (shapes.list_of T.item_of) (table_view document.now)) }
    ensures memory { ¬ (result ≡ Err (SpecFault.System SystemFault.Memory)) }
{
    let Some(value) = value_at(document, key) else {
        return Err(misshapen(alloc, key));
    };
    match list_of(alloc, value) {
        Ok(list) => Ok(list),
        Err(KeyFault::Shape) => Err(misshapen(alloc, key)),
        Err(KeyFault::Memory) => Err(SpecFault::Memory),
    }
}

/// The value at a key.
fn value_at<'a>(document: &'a Table, key: &str) -> Option<&'a Value>
    ensures { option_map (λ value. view value.now) result ≡ get_member key.now (table_view document.now) }
{
    document.get(key)
}

/// That a key is at fault, unless there is no memory to say so.
fn misshapen(alloc: Global, key: &str) -> SpecFault
    ensures { UnlessMemory result (result ≡ SpecFault.Shape key.now) }
{
    match String::from_str(alloc, key) {
        Ok(text) => SpecFault::Shape(Text::of(text)),
        Err(_) => SpecFault::Memory,
    }
}

/// The least key that is none of the three. The keys of a table ascend.
#[tactic(auto, using(crate::proofs::Least::least_is_first))]
fn least_other(document: &Table) -> Option<&str>
    ensures { option_map (λ key. key.now) result ≡ least_other (table_view document.now) }
{
    for key in document.keys() {
        if !is_known(key.as_str()) {
            return Some(key.as_str());
        }
    }
    None
}

fn is_known(key: &str) -> bool
    ensures { result ≡ file.is_known key.now }
{
    key == "sorts" || key == "axioms" || key == "rules"
}
