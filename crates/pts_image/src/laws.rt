// The laws of images. Each is a function without a body that is never run: what it ensures is the law.
ghost use Rattle.pts_image.specs.Following.{ArgumentsAreInterpreted, AssumptionsAreInterpreted, BasesAreInterpreted};
ghost use Rattle.pts_image.specs.Following.{BasesAreRenamed, EntriesAreFixed, EntriesAreInterpreted, InstancesFollow, JudgementsAreFixed, RenamedFollow};
ghost use Rattle.pts_image.specs.Graft.{GraftsAreValid, GraftsSayTheSame};
ghost use Rattle.pts_image.specs.Interpretation.{ImagesAreValid, ImagesConclude};
ghost use Rattle.pts_image.specs.Renaming.{FrontsAreRenamed, RenamedRecordsAreValid, RenamedRecordsConclude};
ghost use Rattle.pts_image.specs.Substitution.{SubstitutedRecordsAreValid, SubstitutedRecordsConclude};

/// A valid record with new names is valid over every front that has the entries under their new names.
pub fn renamed_records_are_valid()
    ensures { RenamedRecordsAreValid }
{}

/// It concludes what it concluded, with new names.
#[tactic(auto, using(crate::proofs::Renamed::renamed_concludes))]
pub fn renamed_records_conclude()
    ensures { RenamedRecordsConclude }
{}

/// A name may be renamed throughout a front to one that the front does not have.
#[tactic(auto, using(crate::proofs::RenamedFronts::front_renamed))]
pub fn fronts_are_renamed()
    ensures { FrontsAreRenamed }
{}

/// The image of a record that is valid over one front is valid over each front in which that one is interpreted.
pub fn images_are_valid()
    ensures { ImagesAreValid }
{}

/// It concludes the image of what the record concludes.
pub fn images_conclude()
    ensures { ImagesConclude }
{}

/// A constant that is an assumption may be replaced in a valid record by a term that has its type.
pub fn substituted_records_are_valid()
    ensures { SubstitutedRecordsAreValid }
{}

/// The record then concludes what it concluded, with the term for the constant.
pub fn substituted_records_conclude()
    ensures { SubstitutedRecordsConclude }
{}

/// A valid record may be grafted on another one in the place of a closed judgement that its last node makes too.
pub fn grafts_are_valid()
    ensures { GraftsAreValid }
{}

/// The last node of the graft says what the outer record's last node says.
pub fn grafts_say_the_same()
    ensures { GraftsSayTheSame }
{}

/// A derivable judgement is its own image where the constants of its front stay.
pub fn judgements_are_fixed()
    ensures { JudgementsAreFixed }
{}

/// So are the entries of a legal front.
pub fn entries_are_fixed()
    ensures { EntriesAreFixed }
{}

/// A legal front whose constants stay is interpreted in every front that has its entries.
pub fn bases_are_interpreted()
    ensures { BasesAreInterpreted }
{}

/// An entry may follow the one front, and its image under a fresh name the other.
pub fn entries_are_interpreted()
    ensures { EntriesAreInterpreted }
{}

/// An assumption that an argument replaces may follow the one front alone.
pub fn assumptions_are_interpreted()
    ensures { AssumptionsAreInterpreted }
{}

/// With one argument more, one assumption more is interpreted.
pub fn arguments_are_interpreted()
    ensures { ArgumentsAreInterpreted }
{}

/// The instances of what may follow a front may follow each front in which that front is interpreted.
pub fn instances_follow()
    ensures { InstancesFollow }
{}

/// The same with new names alone: this is loading, and renaming in a draft.
pub fn renamed_follow()
    ensures { RenamedFollow }
{}

/// A legal front no name of which changes is renamed to every front that has its entries.
pub fn bases_are_renamed()
    ensures { BasesAreRenamed }
{}
