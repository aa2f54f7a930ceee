ghost use Rattle.std.specs.Prelude.{◌≡◌, ◌⊎◌, List, []};
ghost use Rattle.pts_tokens.specs.Tokens.{Spot};
ghost use Rattle.pts_grammar.specs.Syntax.{Syntax};
ghost use Rattle.pts_grammar.specs.Grammar.{Reads};
ghost use Rattle.pts_grammar.specs.Refusals.{RefusalsAreDetermined};

/// A law: a list of tokens is the text of at most one term.
#[tactic(auto, using(crate::proofs::Sound::one_syntax))]
pub fn texts_are_unambiguous()
    ensures { (ts : List Spot) (T U : Syntax) → Reads ts T [] → Reads ts U [] → T ≡ U }
{}

/// A law: the grammar refuses a text at one place at most, where one kind of token must be.
#[tactic(auto, using(crate::proofs::Determined::determined))]
pub fn refusals_are_determined()
    ensures { RefusalsAreDetermined }
{}
