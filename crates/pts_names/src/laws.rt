ghost use Rattle.pts_names.specs.Dotted.{NamesAreDottedIdentifiers};

/// A law: a text is a name exactly where it is one or more identifiers with single dots between
/// them, in at most 128 bytes.
#[tactic(auto, using(crate::proofs::Dotted::names_are_dotted))]
pub fn names_are_dotted_identifiers()
    ensures { NamesAreDottedIdentifiers }
{}
