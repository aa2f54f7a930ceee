// Inner names.

ghost use Rattle.std.specs.Prelude.{◌≡◌, position, None};
ghost use Rattle.pts_check.specs.Entered.{declared_entries};
ghost use Rattle.pts_core.specs.InnerNames.{NoneInner};
ghost use Rattle.pts_core.specs.InnerNames as inner;

use pts_names::Name;
use pts_record::Declaration;

/// Whether a name is inner, and so is one that no entry of a core has: it has several parts, and the first of them is `_`.
pub fn is_inner(name: &Name) -> bool
    ensures { result ≡ inner.is_inner name.now }
{
    name.text().starts_with("_.")
}

/// The number of the first declaration whose name is inner.
pub fn first_inner(declarations: &[Declaration]) -> Option<usize>
    ensures first { result ≡ position (λ d. inner.is_inner d.name) declarations.now }
    ensures none { result ≡ None → NoneInner (declared_entries declarations.now) }
{
    place_of_inner(declarations)
}

// The place of the first of them. That no name is inner where there is none is then a lemma on lists.
fn place_of_inner(declarations: &[Declaration]) -> Option<usize>
    ensures { result ≡ position (λ d. inner.is_inner d.name) declarations.now }
{
    declarations
        .iter()
        .position(|declaration| is_inner(&declaration.name))
}
