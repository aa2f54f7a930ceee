ghost use Rattle.std.specs.Prelude.{◌≡◌, ◌∷◌, [], ◌<◌, OnOk, MatchOption, map};
ghost use Rattle.pts_grammar.specs.declared.frame.Frame.{Frame};
ghost use Rattle.pts_grammar.specs.Machine.{opened};
ghost use Rattle.pts_grammar.specs.Open.{frame};

use crate::frame::Frame;
use crate::part::Subtree;
use std::alloc::{AllocFailed, Global};
use std::marker::Model;

/// The constructs that are open. Contracts see the innermost first.
#[derive(Debug, Drop)]
pub(crate) struct Stack {
    frames: Vec<Frame>,
    parens: usize,
}

impl Model for Stack {
    ghost use Rattle.std.specs.Prelude.{◌≡◌, List, [], map};
    ghost use Rattle.std.specs.Coded.{codes};
    ghost use Rattle.pts_grammar.specs.declared.frame.Frame.{Frame};
    ghost use Rattle.pts_grammar.specs.contracts.frame.Frame as e;
    ghost use Rattle.pts_grammar.specs.Machine.{opened};
    ghost use Rattle.pts_grammar.specs.Open.{frame, newest};

    ghost Value = { List Frame };

    ghost coded = { Prim.hlevel (codes, e.the_row.coded) };

    ghost view = { λ s. newest [] s.frames.items };

    ghost invariant = { λ s. opened (map frame (newest [] s.frames.items)) ≡ s.parens };
}

impl Stack {
    /// Nothing is open.
    pub(crate) fn new(alloc: Global) -> Stack
        ensures { result ≡ [] }
    {
        Stack {
            frames: Vec::new(alloc),
            parens: 0,
        }
    }

    /// How many parentheses are open.
    pub(crate) fn parens(&self) -> usize
        ensures { result ≡ opened (map frame self.now) }
    {
        self.parens
    }

    /// Opens a construct that is no parenthesis.
    #[tactic(auto, using(crate::proofs::Stacks::newest_more, crate::proofs::Stacks::opened_more))]
    pub(crate) fn push(&mut self, new: Frame) -> Result<(), AllocFailed<Frame>>
        requires { opened (frame new ∷ []) ≡ 0 }
        ensures { OnOk result (self.new ≡ new ∷ self.old) }
    {
        self.frames.push(new)
    }

    /// Opens a parenthesis, perhaps after a function.
    #[tactic(auto, using(crate::proofs::Stacks::newest_more, crate::proofs::Stacks::opened_more))]
    pub(crate) fn open(&mut self, function: Option<Subtree>) -> Result<(), AllocFailed<Frame>>
        requires { opened (map frame self.old) < 2000 }
        ensures { OnOk result (self.new ≡ Frame.Parens function ∷ self.old) }
    {
        self.frames.push(Frame::Parens(function))?;
        self.parens += 1;
        Ok(())
    }

    /// Takes the innermost construct out.
    #[tactic(auto, using(crate::proofs::Stacks::newest_more, crate::proofs::Stacks::opened_more))]
    pub(crate) fn pop(&mut self) -> Option<Frame>
        ensures { MatchOption result (self.old ≡ [] × self.new ≡ []) (λ f. self.old ≡ f ∷ self.new) }
    {
        let last = self.frames.pop()?;
        if let Frame::Parens(_) = &last {
            self.parens -= 1;
        }
        Some(last)
    }
}
