ghost use Rattle.std.specs.Prelude.{◌≡◌, List, Option};
ghost use Rattle.pts_names.specs.Name.{Name};
ghost use Rattle.pts_lines.specs.declared.command.Command.{Command};
ghost use Rattle.pts_tokens.specs.Tokens.{Spot};
ghost use Rattle.pts_lines.specs.Lines.{Line, LineReads};
ghost use Rattle.pts_lines.specs.Reading.{LineRefusalsAreDetermined, LinesAreNotRefused};

/// A law: a list of tokens is at most one line, whatever the words of the commands.
#[tactic(auto, using(crate::proofs::Unambiguous::one_line))]
pub fn lines_are_unambiguous()
    ensures { (words : Name → Option Command) (ts : List Spot) (L M : Line) → LineReads words ts L → LineReads words ts M → L ≡ M }
{}

/// A law: whatever the words of the commands, a text is refused for one reason at most, and for none where its tokens are a
/// line that is within limits.
#[tactic(auto, using(crate::proofs::Determined::refused_once_only, crate::proofs::Determined::read_not_refused))]
pub fn line_refusals_are_determined()
    ensures one { LineRefusalsAreDetermined }
    ensures none { LinesAreNotRefused }
{}
