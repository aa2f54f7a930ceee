ghost use Rattle.std.specs.Prelude.{◌≡◌, Some, None, IfOk, MatchOption};
ghost use Rattle.pts_grammar.specs.Seen.{part_of, parts, with_three};
ghost use Rattle.pts_grammar.specs.Syntax.{Syntax};
ghost use Rattle.pts_names.specs.Name.{underscore};
ghost use Rattle.pts_grammar.specs.declared.frame.Binder.TheVariants.{Pi};

use crate::frame::Binder;
use crate::tree::Tree;
use pts_names::{Name, NameFault, SortName};
use sqlite_items::Boxed;
use std::alloc::{AllocError, Global};
use std::marker::Model;

/// The greatest depth of a term.
const DEEPEST: u32 = 2000;

/// A part of a term: its tree with its depth, or no tree where it is deeper than 2,000. So the parser goes on through a
/// text that nests too deep, and holds no tree that is. Contracts see the tree.
#[derive(Debug, Drop)]
pub(crate) struct Subtree {
    tree: Option<Tree>,
    depth: u32,
}

impl Model for Subtree {
    ghost use Rattle.std.specs.Prelude.{◌≡◌, ◌≤◌, Option, MatchOption, ⊤};
    ghost use Rattle.std.specs.Coded.{codes};
    ghost use Rattle.pts_grammar.specs.declared.tree.Tree.{Tree};
    ghost use Rattle.pts_grammar.specs.contracts.tree.Tree as e;
    ghost use Rattle.pts_grammar.specs.Syntax.{depth_of};
    ghost use Rattle.pts_grammar.specs.Seen.{syntax_of};

    ghost Value = { Option Tree };

    ghost coded = { Prim.hlevel (codes, e.the_row.coded) };

    ghost view = { λ p. p.tree };

    ghost invariant = { λ p. MatchOption p.tree ⊤ (λ t. (depth_of (syntax_of t) ≡ p.depth) × (p.depth ≤ 2000)) };
}

impl Subtree {
    /// A sort.
    pub(crate) fn sort(place: usize, spelling: SortName) -> Subtree
        ensures { part_of result ≡ parts.of_sort place spelling }
    {
        Subtree {
            tree: Some(Tree::Sort(place, spelling)),
            depth: 1,
        }
    }

    /// A name.
    pub(crate) fn name(place: usize, name: Name) -> Subtree
        ensures { part_of result ≡ parts.of_name place name }
    {
        Subtree {
            tree: Some(Tree::Named(place, name)),
            depth: 1,
        }
    }

    /// A part that is too deep.
    fn deep() -> Subtree
        ensures { result ≡ None }
    {
        Subtree {
            tree: None,
            depth: DEEPEST,
        }
    }

    /// A function applied to an argument.
    pub(crate) fn applied(
        alloc: Global,
        function: Subtree,
        argument: Subtree,
    ) -> Result<Subtree, AllocError>
        ensures { IfOk result (λ p. part_of p ≡ parts.applied (part_of function) (part_of argument)) }
    {
        let depth = function.depth.max(argument.depth);
        let (Some(f), Some(a)) = (function.tree, argument.tree) else {
            return Ok(Subtree::deep());
        };
        if depth >= DEEPEST {
            return Ok(Subtree::deep());
        }
        Ok(Subtree {
            tree: Some(Tree::App(Boxed::new(alloc, f)?, Boxed::new(alloc, a)?)),
            depth: depth + 1,
        })
    }

    /// An abstraction or a product.
    pub(crate) fn bound(
        alloc: Global,
        binder: Binder,
        name: Name,
        domain: Subtree,
        body: Subtree,
    ) -> Result<Subtree, AllocError>
        ensures { IfOk result (λ p. part_of p ≡ parts.bound binder name (part_of domain) (part_of body)) }
    {
        let depth = domain.depth.max(body.depth);
        let (Some(a), Some(b)) = (domain.tree, body.tree) else {
            return Ok(Subtree::deep());
        };
        if depth >= DEEPEST {
            return Ok(Subtree::deep());
        }
        let (a, b) = (Boxed::new(alloc, a)?, Boxed::new(alloc, b)?);
        let tree = match binder {
            Binder::Lam => Tree::Lam(name, a, b),
            Binder::Pi => Tree::Pi(name, a, b),
        };
        Ok(Subtree {
            tree: Some(tree),
            depth: depth + 1,
        })
    }

    /// A product that is written with an arrow.
    pub(crate) fn arrow(
        alloc: Global,
        domain: Subtree,
        body: Subtree,
    ) -> Result<Subtree, AllocError>
        ensures { IfOk result (λ p. part_of p ≡ parts.bound Pi underscore (part_of domain) (part_of body)) }
    {
        match Name::read(alloc, "_") {
            Ok(name) => Subtree::bound(alloc, Binder::Pi, name, domain, body),
            Err(fault) => match fault {
                NameFault::Memory => Err(AllocError),
                _ => unreachable!(),
            },
        }
    }

    /// A local definition: the name, the definition, its type, and the body.
    pub(crate) fn defined(
        alloc: Global,
        name: Name,
        definition: Subtree,
        ty: Subtree,
        body: Subtree,
    ) -> Result<Subtree, AllocError>
        ensures { IfOk result (λ p. part_of p ≡ parts.defined name (part_of definition) (part_of ty) (part_of body)) }
    {
        let depth = definition.depth.max(ty.depth).max(body.depth);
        let trees = three(definition.into_tree(), ty.into_tree(), body.into_tree());
        let Some((d, a, b)) = trees else {
            return Ok(Subtree::deep());
        };
        if depth >= DEEPEST {
            return Ok(Subtree::deep());
        }
        let (d, a, b) = (
            Boxed::new(alloc, d)?,
            Boxed::new(alloc, a)?,
            Boxed::new(alloc, b)?,
        );
        Ok(Subtree {
            tree: Some(Tree::Let(name, d, a, b)),
            depth: depth + 1,
        })
    }

    /// The tree, if the part is not too deep.
    pub(crate) fn into_tree(self) -> Option<Tree>
        ensures { result ≡ self }
    {
        self.tree
    }
}

/// The three trees, if there are all.
fn three(
    first: Option<Tree>,
    second: Option<Tree>,
    third: Option<Tree>,
) -> Option<(Tree, Tree, Tree)>
    ensures { MatchOption result ((f : Syntax → Syntax → Syntax → Syntax) → with_three f (part_of first) (part_of second) (part_of third) ≡ None) (λ t. (first ≡ Some t.0) × (second ≡ Some t.1) × (third ≡ Some t.2)) }
{
    match (first, second, third) {
        (Some(one), Some(two), Some(three)) => Some((one, two, three)),
        _ => None,
    }
}
