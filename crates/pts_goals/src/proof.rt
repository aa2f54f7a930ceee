// Open proofs.

ghost use Rattle.std.specs.Prelude.{◌≡◌, ◌<◌, ◌-◌, [], length, true, false, Some, IfOk, OnOk, OnErr, IfErr, IsTrue, is_some, slice_get};
ghost use Rattle.pts_terms.specs.Tree.{bare};
ghost use Rattle.pts_record.specs.Said.{named_told, scope_of, place_of, claim_of, is_context, is_judgement};
ghost use Rattle.pts_rules.specs.Parts.{sort_in};
ghost use Rattle.pts_grow.specs.Keeps.{Keeps, StaysValid};
ghost use Rattle.pts_goals.specs.declared.fault.FillFault.TheVariants.{Deep};
ghost use Rattle.pts_goals.specs.Steps.{IsGoal};
ghost use Rattle.pts_goals.specs.OpenGoals.{IsOpenProof};
ghost use Rattle.pts_goals.specs.OpenProofs.{IsStarted, FitsFirst, IsFilled, StaysWithin, GoesBeyond, IsFinished, WhyUnfinished, lent, with_scratch};
ghost use Rattle.pts_goals.specs.FillingOut.{IsSound};

use crate::copies::{copy_goal, copy_goals, copy_steps};
use crate::finishing::{Concluded, conclude};
use crate::measures::measures_with;
use crate::stack::{first_goal, first_goals, put, subgoals, take_back};
use crate::{FillFault, FilledGoal, FinishFault, Goal, Step};
use pts_grow::judged_at;
use pts_names::Name;
use pts_record::{Declaration, Record};
use std::alloc::AllocError;
use std::marker::Model;
use std::snapshot::Snapshot;

/// A theorem that is being proved: a scratch record, the goals that are open, and the steps that filled the others. The
/// record can be lent, so that lines are added to it; what was lent is known to contracts alone.
#[derive(Drop)]
pub struct Proof {
    name: Name,
    root: Goal,
    scratch: Record,
    is_lent: bool,
    lent: Snapshot<Record>,
    steps: Vec<FilledGoal>,
    goals: Vec<Goal>,
}

impl Model for Proof {
    ghost use Rattle.std.specs.Prelude.{◌≤◌, ◌+◌, if◌then◌else◌, vec_len, vec_capacity};
    ghost use Rattle.pts_goals.specs.OpenGoals.{IsOpenProof};
    ghost use Rattle.pts_goals.specs.OpenProofs.{OpenProof};

    ghost Value = { OpenProof };

    ghost view = { λ p. record { name = p.name; scratch = (if p.is_lent then p.lent.value else p.scratch); is_lent = p.is_lent; root = p.root; steps = p.steps.items; goals = p.goals.items } };

    ghost invariant = { λ p. IsOpenProof (if p.is_lent then p.lent.value else p.scratch) p.root p.steps.items p.goals.items × (vec_len p.goals + vec_len p.steps ≤ vec_capacity p.goals) };
}

impl Proof {
    /// The proof of a theorem: its one goal is the subject of a judgement, by the number of its node, that has a sort in an
    /// empty context.
    ///
    /// # Errors
    ///
    /// Out of memory.
    pub fn start(name: Name, proof: Record, sorted: usize) -> Result<Proof, AllocError>
        requires node { sorted < length proof.nodes }
        requires judgement { is_judgement (named_told proof sorted) ≡ true }
        requires context { is_context (named_told proof (place_of (named_told proof sorted))) ≡ true }
        requires empty { (scope_of (named_told proof sorted)).entries ≡ [] }
        requires sort { is_some (sort_in (bare (claim_of (named_told proof sorted)))) ≡ true }
        ensures started { IfOk result (IsStarted name proof sorted) }
    {
        let alloc = proof.alloc();
        let (ctx, judged) = judged_at(&proof, sorted);
        let root = first_goal(alloc, ctx, judged);
        let goals = first_goals(alloc, ctx, judged)?;
        let steps = Vec::new(alloc);
        let lent = Snapshot::of(&proof);
        Ok(Proof {
            name,
            root,
            scratch: proof,
            is_lent: false,
            lent,
            steps,
            goals,
        })
    }

    /// The theorem's name.
    pub fn name(&self) -> &Name
        ensures { result.now ≡ self.now.name }
    {
        &self.name
    }

    /// How many goals are open.
    pub fn goals(&self) -> usize
        ensures { result ≡ length self.now.goals }
    {
        self.goals.len()
    }

    /// A goal that is open, counted from 0, the one that comes first.
    pub fn goal(&self, number: usize) -> &Goal
        requires here { self.now.is_lent ≡ false }
        requires number { number < length self.now.goals }
        ensures goal { slice_get self.now.goals (length self.now.goals - 1 - number) ≡ Some result.now }
        ensures is_goal { IsGoal self.now.scratch result.now }
    {
        &self.goals[self.goals.len() - 1 - number]
    }

    /// The scratch record.
    pub fn scratch(&self) -> &Record
        requires { self.now.is_lent ≡ false }
        ensures { result.now ≡ self.now.scratch }
    {
        &self.scratch
    }

    /// Moves the scratch record out, and leaves an empty one.
    pub fn lend(&mut self) -> Record
        requires { self.old.is_lent ≡ false }
        ensures record { result ≡ self.old.scratch }
        ensures lent { self.new ≡ lent self.old }
    {
        let alloc = self.scratch.alloc();
        let scratch = std::mem::replace(&mut self.scratch, Record::new(alloc));
        self.lent = Snapshot::of(&scratch);
        self.is_lent = true;
        scratch
    }

    /// Takes a record in place of the one that was lent. It has what that had, perhaps with further lines.
    pub fn restore(&mut self, given: Record)
        requires lent { self.old.is_lent ≡ true }
        requires keeps { Keeps self.old.scratch given }
        ensures { self.new ≡ with_scratch self.old given }
    {
        self.scratch = given;
        self.is_lent = false;
    }

    /// Puts a step that fits into the goal that comes first; the goals that it leaves take its place. This costs as much as
    /// the names of these goals, whatever steps there are already.
    ///
    /// # Errors
    ///
    /// `Deep` exactly where the term of the proof with this step, in which each open goal counts as a leaf, is not within
    /// limits. `Memory`. The proof is as before.
    pub fn fill(&mut self, step: Step) -> Result<(), FillFault>
        requires here { self.old.is_lent ≡ false }
        requires fits { FitsFirst self.old.scratch self.old.goals step }
        ensures filled { OnOk result (IsFilled self.old step self.new) }
        ensures within { OnOk result (StaysWithin self.old step) }
        ensures deep { IfErr result (λ e. e ≡ Deep → GoesBeyond self.old step) }
        ensures unchanged { OnErr result (self.new ≡ self.old) }
        ensures here { self.new.is_lent ≡ false }
    {
        let last = self.goals.len() - 1;
        let goal = &self.goals[last];
        let measures = measures_with(&self.scratch, &self.steps, goal, &step);
        if measures.depth > 2000 || measures.size > 1_000_000 {
            return Err(FillFault::Deep);
        }
        let others = subgoals(self.scratch.alloc(), goal, &step)?;
        self.steps.reserve(1)?;
        self.goals.reserve(self.steps.len() + (others.len() + 1))?;
        put(&mut self.steps, &mut self.goals, step, others, measures);
        Ok(())
    }

    /// Takes the last step back, and says whether there was one. It takes no memory.
    pub fn undo(&mut self) -> bool
        requires here { self.old.is_lent ≡ false }
        ensures none { result ≡ false → (self.old.steps ≡ []) × (self.new ≡ self.old) }
        ensures undone { IsTrue result → (s : Step) × IsFilled self.new s self.old }
        ensures here { self.new.is_lent ≡ false }
    {
        take_back(&mut self.steps, &mut self.goals)
    }

    /// The same proof. This costs as much as the scratch record and all steps.
    ///
    /// # Errors
    ///
    /// Out of memory.
    pub fn copy(&self) -> Result<Proof, AllocError>
        requires here { self.now.is_lent ≡ false }
        ensures { IfOk result (λ p. p ≡ self.now) }
    {
        let alloc = self.scratch.alloc();
        let scratch = self.scratch.copy()?;
        let lent = Snapshot::of(&scratch);
        let name = self.name.copy()?;
        let root = copy_goal(alloc, &self.root)?;
        let steps = copy_steps(alloc, &self.steps)?;
        let goals = copy_goals(alloc, &self.goals, self.goals.len() + self.steps.len())?;
        Ok(Proof {
            name,
            root,
            scratch,
            is_lent: false,
            lent,
            steps,
            goals,
        })
    }

    /// The goals are those that the steps leave, and every filling-out of the proof can be closed. This is said, and nothing
    /// is done.
    pub fn sound(&self)
        ensures is_open { IsOpenProof self.now.scratch self.now.root self.now.steps self.now.goals }
        ensures sound { IsSound self.now }
    {
        let _ = &self.scratch;
    }

    /// The declaration of the theorem, once no goal is open. Its body is the term that the steps make. Its record has what
    /// the scratch record has, is valid where that is, and concludes the declaration: nothing is inferred or checked anew,
    /// and no term is beyond the limits. This costs as much as the steps and the terms of the declaration.
    ///
    /// # Errors
    ///
    /// `GoalsLeft` exactly where goals are open, with their number. `Memory`. Each hands the proof back, with the same goals
    /// and steps; its record may have further lines.
    pub fn finish(self) -> Result<Declaration, (FinishFault, Proof)>
        requires here { self.is_lent ≡ false }
        ensures finished { IfOk result (IsFinished self) }
        ensures none_left { OnOk result (self.goals ≡ []) }
        ensures refused { IfErr result (λ e. WhyUnfinished self.goals e.0) }
        ensures same { IfErr result (λ e. e.1 ≡ with_scratch self e.1.scratch) }
        ensures keeps { IfErr result (λ e. Keeps self.scratch e.1.scratch) }
        ensures valid { IfErr result (λ e. StaysValid self.scratch e.1.scratch) }
    {
        let count = self.goals.len();
        if count > 0 {
            return Err((FinishFault::GoalsLeft(count), self));
        }
        let mut this = self;
        match conclude(&mut this.scratch, &this.root, &this.steps) {
            Ok(concluded) => {
                let Proof { name, scratch, .. } = this;
                let Concluded { body, ty } = concluded;
                Ok(Declaration {
                    name,
                    body: Some(body),
                    ty,
                    proof: scratch,
                })
            }
            Err(_) => Err((FinishFault::Memory, this)),
        }
    }
}
