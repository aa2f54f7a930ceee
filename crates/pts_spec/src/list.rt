ghost use Rattle.std.specs.Prelude.{Option};
ghost use Rattle.toml.specs.Data.{Data};
ghost use Rattle.toml.specs.View.{view};
ghost use Rattle.pts_spec.specs.Shapes.{spelling_of, axiom_of, rule_of};
ghost use Rattle.pts_spec.specs.Shapes as shapes;
ghost use Rattle.pts_spec.specs.Calls.{FitsShape, FitsAs};

use crate::fault::KeyFault;
use pts_names::{SortName, SortNameFault};
use std::alloc::Global;
use toml::Value;

/// What stands in a list of a specification.
pub(crate) trait Item: Drop {
    ghost item_of: { Data → Option Self };

    /// The item that a value is.
    fn read(alloc: Global, value: &Value) -> Result<Self, KeyFault>
    where
        Self: Sized,
        ensures { FitsShape result (item_of (view value.now)) };
}

/// A text that spells a sort.
impl Item for SortName {
    ghost item_of = { spelling_of };

    fn read(alloc: Global, value: &Value) -> Result<SortName, KeyFault> {
        let Some(text) = value.as_str() else {
            return Err(KeyFault::Shape);
        };
        match SortName::read(alloc, text) {
            Ok(spelling) => Ok(spelling),
            Err(SortNameFault::BadSpelling) => Err(KeyFault::Shape),
            Err(SortNameFault::Memory) => Err(KeyFault::Memory),
        }
    }
}

/// A list of two spellings.
impl Item for (SortName, SortName) {
    ghost item_of = { axiom_of };

    fn read(alloc: Global, value: &Value) -> Result<(SortName, SortName), KeyFault> {
        let mut spellings = list_of::<SortName>(alloc, value)?.into_iter();
        match (spellings.next(), spellings.next(), spellings.next()) {
            (Some(left), Some(right), None) => Ok((left, right)),
            _ => Err(KeyFault::Shape),
        }
    }
}

/// A list of three spellings, or of two, of which the second then stands for the third too.
impl Item for (SortName, SortName, SortName) {
    ghost item_of = { rule_of };

    fn read(alloc: Global, value: &Value) -> Result<(SortName, SortName, SortName), KeyFault> {
        let mut spellings = list_of::<SortName>(alloc, value)?.into_iter();
        match (
            spellings.next(),
            spellings.next(),
            spellings.next(),
            spellings.next(),
        ) {
            (Some(first), Some(second), Some(third), None) => Ok((first, second, third)),
            (Some(first), Some(second), None, None) => {
                let third = second.copy()?;
                Ok((first, second, third))
            }
            _ => Err(KeyFault::Shape),
        }
    }
}

/// The list of items that a value is.
pub(crate) fn list_of<T: Item>(alloc: Global, list: &Value) -> Result<Vec<T>, KeyFault>
    ensures { FitsAs (λ items. items.items) result (shapes.list_of T.item_of (view list.now)) }
{
    let Some(array) = list.as_array() else {
        return Err(KeyFault::Shape);
    };
    let mut items = Vec::with_capacity(alloc, array.len())?;
    for value in array {
        items.push(T::read(alloc, value)?)?;
    }
    Ok(items)
}
