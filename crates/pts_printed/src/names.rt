// What is sure of the names in every term.
ghost use Rattle.std.specs.List.{AllByRecursion};
ghost use Rattle.pts_terms.specs.Seen.{named};
ghost use Rattle.pts_printed.specs.Laws.{HasNames, IsName};

use pts_names::Name;
use pts_terms::Term;

/// What is sure of every name: its text is UTF-8 and a name. It is of no use at run time.
fn is_name(name: &Name)
    ensures { IsName name.now }
{
    let _ = name.text();
}

/// The same of all names in a list.
pub fn names_are_names(names: &[Name])
    ensures { AllByRecursion IsName names.now }
{
    for name in names {
        is_name(name);
    }
}

/// What is sure of every term: its constants and the printed names of its binders are names. It walks over the term,
/// and is of no use at run time.
pub fn names_of_terms_are_names(term: &Term)
    ensures { HasNames (named term.now) }
{
    match term {
        Term::Sort(_) | Term::Var(_) => {}
        Term::Const(c) => is_name(c),
        Term::App(f, a) => {
            names_of_terms_are_names(f.get());
            names_of_terms_are_names(a.get());
        }
        Term::Lam(x, t, b) | Term::Pi(x, t, b) => {
            is_name(x);
            names_of_terms_are_names(t.get());
            names_of_terms_are_names(b.get());
        }
        Term::Let(x, d, t, b) => {
            is_name(x);
            names_of_terms_are_names(d.get());
            names_of_terms_are_names(t.get());
            names_of_terms_are_names(b.get());
        }
    }
}
