// The laws of printed text. Each is a function without a body that is never run: what it ensures is the law.
ghost use Rattle.pts_printed.specs.Laws.{ChosenNamesCaptureNothing, LocalsAreToldApart, NumbersAreLeast, PrintedGoalsAreReadBack, PrintedTermsAreReadBack, SortsOfSystemsStandOnce};

/// The printed text of a term is read back as a term that is equal to it apart from printed names. Its locals have the
/// names that are chosen for them, and its constants stand for themselves.
#[tactic(auto, using(crate::proofs::ReadBack::terms_read_back))]
pub fn printed_terms_are_read_back()
    ensures { PrintedTermsAreReadBack }
{}

/// The same of the statement of a printed goal, and of the type of each hypothesis over those before it.
#[tactic(auto, using(crate::proofs::Goals::goals_read_back))]
pub fn printed_goals_are_read_back()
    ensures { PrintedGoalsAreReadBack }
{}

/// The name that is chosen for a binder has one part and at most 128 bytes. It is neither the name of an outer variable
/// that occurs in the body nor a constant that does.
pub fn chosen_names_capture_nothing()
    ensures { ChosenNamesCaptureNothing }
{}

/// Where a name is forbidden, the number that is appended to it is the least from 1 on that makes it allowed.
#[tactic(auto, using(crate::proofs::Least::numbers_least))]
pub fn numbers_are_least()
    ensures { NumbersAreLeast }
{}

/// The names of locals, in a term and in a goal, are as many as the locals; each has one part and at most 128 bytes, none
/// is a constant that occurs, and none stands twice.
pub fn locals_are_told_apart()
    ensures { LocalsAreToldApart }
{}

/// No sort of a system without fault stands twice, as the law of printed terms wants it.
pub fn sorts_of_systems_stand_once()
    ensures { SortsOfSystemsStandOnce }
{}
