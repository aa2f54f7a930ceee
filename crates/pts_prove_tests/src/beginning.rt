// Open proofs of statements.

ghost use Rattle.std.specs.Prelude.{◌≡◌, IfSome, IsTrue, false};
ghost use Rattle.pts_grow.specs.Judges.{IsEmpty};

use crate::scene::{Scene, term};
use pts_goals::Proof;
use pts_infer::infer_type;
use pts_names::Name;
use pts_record::{Form, Record};
use pts_rules::Meter;
use pts_terms::Term;
use pts_worked::{is_sort, judged};
use std::alloc::Global;

fn is_empty(proof: &Record, node: usize) -> bool
    ensures { IsTrue result → IsEmpty proof.now node }
{
    if node >= proof.nodes() {
        return false;
    }
    matches!(proof.node(node).form, Form::Empty)
}

// The proof of what the last node of a record judges to have a sort.
#[tactic(auto, using(pts_goals::proofs::Beginning::beginning))]
fn begun(name: Name, record: Record) -> Option<Proof>
    ensures { IfSome result (λ p. p.is_lent ≡ false) }
{
    let last = record.nodes().checked_sub(1)?;
    let ctx = record.node(last).ctx;
    let sorted = judged(&record, ctx, last)?;
    if !is_empty(&record, ctx) || !is_sort(&record, sorted.claim) {
        return None;
    }
    match Proof::start(name, record, sorted.node) {
        Ok(proof) => Some(proof),
        Err(_) => None,
    }
}

/// The proof of a statement, with no step.
pub fn begin_term(alloc: Global, scene: &Scene, statement: &Term) -> Option<Proof>
    ensures { IfSome result (λ p. p.is_lent ≡ false) }
{
    let name = Name::read(alloc, "it").ok()?;
    let mut meter = Meter::new(1_000_000);
    match infer_type(
        alloc,
        &scene.system,
        scene.draft.scope(),
        statement,
        &mut meter,
    ) {
        Ok(record) => begun(name, record),
        Err(_) => None,
    }
}

/// The same of a statement that is written.
pub fn begin(alloc: Global, scene: &Scene, statement: &str) -> Option<Proof>
    ensures { IfSome result (λ p. p.is_lent ≡ false) }
{
    let statement = term(alloc, scene, &[], statement)?;
    begin_term(alloc, scene, statement.get())
}
