// The laws of valid records, of derivability and of legal fronts. Each is a function without a body that is never
// run: what it ensures is the law.
ghost use Rattle.std.specs.Prelude.{◌≡◌};
ghost use Rattle.pts_ctx.specs.Front.{HasEntries, bare_front};
ghost use Rattle.pts_rules.specs.Derives.{Legal};
ghost use Rattle.pts_rules.specs.Valid.{IsValid};
ghost use Rattle.pts_rules.specs.Laws.{ConclusionsAreLegal, HeadStepsAreSteps, JudgementsAreScoped, JudgementsAreThinned, LongerFrontsHaveEntries, PrefixesAreLegal, ValidRecordsAreSound, ValidRecordsAreThinned};

use pts_ctx::{Context, System};
use pts_record::Record;

/// Whatever a node of a valid record over a legal front says is so: a context without a bare entry is well formed, a
/// judgement is derivable in a well-formed context, the terms of a comparison are convertible.
#[tactic(auto, using(crate::proofs::Sound::sound))]
pub fn valid_records_are_sound()
    ensures { ValidRecordsAreSound }
{}

/// The entry that a valid record over a legal front concludes may follow the front, if its name is fresh.
#[tactic(auto, using(crate::proofs::Sound::conclusion_legal))]
pub fn conclusions_are_legal()
    ensures { ConclusionsAreLegal }
{}

/// What is derivable over a front is derivable over every legal front that has its entries.
#[tactic(auto, using(crate::proofs::Thinning::thin_derives))]
pub fn judgements_are_thinned()
    ensures { JudgementsAreThinned }
{}

/// A record that is valid over a front is valid over every front that has its entries.
#[tactic(auto, using(crate::proofs::ThinRecord::thin_record))]
pub fn valid_records_are_thinned()
    ensures { ValidRecordsAreThinned }
{}

/// Thinning of a record at hand: it is valid over the small front, and so over the large one, which has all entries of
/// the small one.
#[tactic(auto, using(crate::proofs::ThinRecord::thin_record))]
pub fn thin(system: &System, small: &Context, large: &Context, proof: &Record)
    requires small { Legal system.now (bare_front small.now.entries) }
    requires large { Legal system.now (bare_front large.now.entries) }
    requires entries { HasEntries (bare_front small.now.entries) (bare_front large.now.entries) }
    requires valid { IsValid system.now (bare_front small.now.entries) proof.now }
    ensures { IsValid system.now (bare_front large.now.entries) proof.now }
{
    let _ = system;
    let _ = small;
    let _ = large;
    let _ = proof;
}

/// A prefix of a legal front is legal.
#[tactic(auto, using(crate::proofs::Prefix::prefix_legal))]
pub fn prefixes_are_legal()
    ensures { PrefixesAreLegal }
{}

/// A longer front has the entries of its beginning. So what is derivable or valid over a legal front stays so while
/// the front grows.
#[tactic(auto, using(crate::proofs::Thinning::longer_has_entries))]
pub fn longer_fronts_have_entries()
    ensures { LongerFrontsHaveEntries }
{}

/// The free indices of a derivable judgement point into its local context.
#[tactic(auto, using(crate::proofs::Scoped::judgement_scoped))]
pub fn judgements_are_scoped()
    ensures { JudgementsAreScoped }
{}

/// A head step is a step.
#[tactic(auto, using(crate::proofs::HeadStep::head_is_step))]
pub fn head_steps_are_steps()
    ensures { HeadStepsAreSteps }
{}
