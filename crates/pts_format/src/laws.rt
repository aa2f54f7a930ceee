// The laws of lines of terms. Each is a function without a body that is never run: what it ensures is the law.
ghost use Rattle.pts_format.specs.Laws.{LinesHaveOneAnswer, PrintedLinesAreReadBack, TextsHaveOneAnswer};

use pts_printed::printed_terms_are_read_back;

/// A line has one answer at most.
#[tactic(auto, using(crate::proofs::Once::line_once))]
pub fn lines_have_one_answer()
    ensures { LinesHaveOneAnswer }
{}

/// The lines of a text have one answer at most.
pub fn texts_have_one_answer()
    ensures { TextsHaveOneAnswer }
{}

/// What is printed for a term within limits is read back as an equal term. The names of a term, and the sorts of a system,
/// are as is asked: `pts_printed` has the laws.
pub fn printed_lines_are_read_back()
    ensures { PrintedLinesAreReadBack }
{
    printed_terms_are_read_back();
}
