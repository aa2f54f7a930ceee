// Hypotheses, under which a line asks.

ghost use Rattle.std.specs.Prelude.{◌≡◌, ◌<◌, IfOk, IfErr, IfSome, length, reverse};
ghost use Rattle.pts_ctx.specs.System.{Specification};
ghost use Rattle.pts_terms.specs.Seen.{named};
ghost use Rattle.pts_parser.specs.Resolution.{binder_of, place_of};
ghost use Rattle.pts_reduce_cost.specs.Costs.{Globals};
ghost use Rattle.pts_grow.specs.Keeps.{WhyNot};
ghost use Rattle.pts_queries.specs.Hypotheses.{Grown};
ghost use Rattle.pts_queries.specs.Inner.{HasTerm, IsBegun, term_in};

use pts_grow::{TermFault, add_empty, take_in};
use pts_names::Name;
use pts_record::Record;
use pts_terms::Term;
use std::alloc::{AllocError, Global};

/// Hypotheses: a context of a record, with a name for each of its entries, the outermost first. The record grows by what is
/// asked, and keeps what it has.
#[derive(Drop)]
pub struct Under<'a> {
    pub proof: &'a mut Record,
    pub ctx: usize,
    pub names: &'a [Name],
}

/// A record with the empty context.
#[derive(Drop)]
pub(crate) struct Begun {
    pub proof: Record,
    pub ctx: usize,
}

/// Begins a record for a line without hypotheses.
pub(crate) fn begin(alloc: Global) -> Result<Begun, AllocError>
    ensures { IfOk result (λ b. IsBegun b.proof b.ctx) }
{
    let mut proof = Record::new(alloc);
    let ctx = add_empty(&mut proof)?;
    Ok(Begun { proof, ctx })
}

/// The index of the hypothesis of a name, the innermost first. Only a plain name is that of one.
pub(crate) fn index_of(names: &[Name], name: &Name) -> Option<usize>
    ensures index { result ≡ binder_of name.now (reverse names.now) }
    ensures inside { IfSome result (λ i. i < length names.now) }
{
    if !name.is_plain() {
        return None;
    }
    last_place(names, name)
}

// The place of the last of these names that is this one, counted from the end.
fn last_place(names: &[Name], name: &Name) -> Option<usize>
    ensures place { result ≡ place_of name.now (reverse names.now) }
    ensures inside { IfSome result (λ i. i < length names.now) }
{
    let mut left = names.len();
    while left > 0 {
        left -= 1;
        if name.same(&names[left]) {
            return Some(names.len() - 1 - left);
        }
    }
    None
}

impl Under<'_> {
    /// The number of a term that is handed in.
    #[tactic(auto, using(crate::proofs::Growing::adds))]
    pub(crate) fn enter(&mut self, term: &Term) -> Result<usize, TermFault>
        ensures term { IfOk result (λ n. HasTerm self.new n) }
        ensures is { IfOk result (λ n. term_in self.new n ≡ named term.now) }
        ensures refused { IfErr result (λ e. WhyNot e (named term.now)) }
        ensures grown { (S : Specification) (G : Globals) → Grown S G self.old self.new }
    {
        take_in(self.proof, term)
    }
}
