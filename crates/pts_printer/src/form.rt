// What gets parentheses.

ghost use Rattle.std.specs.Prelude.{◌≡◌, List, ℕ};
ghost use Rattle.pts_terms.specs.Seen.{named};
ghost use Rattle.pts_printed.specs.Spelled.{spelled};
ghost use Rattle.pts_printed.specs.Text as written;

use pts_terms::Term;

/// Whether the term gets parentheses to the left of an arrow and as a function: an abstraction, a product or a local
/// definition.
pub(crate) fn is_binding(term: &Term) -> bool
    ensures { (sorts L : List (List ℕ)) → result ≡ written.is_binding (spelled sorts L (named term.now)) }
{
    matches!(term, Term::Lam(..) | Term::Pi(..) | Term::Let(..))
}

/// Whether the term gets parentheses as an argument: one of these, or an application.
pub(crate) fn is_compound(term: &Term) -> bool
    ensures { (sorts L : List (List ℕ)) → result ≡ written.is_compound (spelled sorts L (named term.now)) }
{
    !matches!(term, Term::Sort(_) | Term::Const(_) | Term::Var(_))
}
