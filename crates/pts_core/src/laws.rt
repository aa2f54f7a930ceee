// The laws of histories and of offers. Each is a function without a body that is never run: what it ensures is the law.
ghost use Rattle.pts_core.specs.Laws.{EarlierFrontsAreLegal, FrontsStay, HistoriesGrow, SoundOffersEnter};

/// A history grows by an event that has its reply at the front that the history leaves, and then leaves the front after it.
#[tactic(auto, using(crate::proofs::Histories::histories_grow))]
pub fn histories_grow()
    ensures { HistoriesGrow }
{}

/// What a history leaves stays, at the same places, whatever comes after it.
pub fn fronts_stay()
    ensures { FrontsStay }
{}

/// Where a history leaves a legal front, so does each history with which it begins. So the front of a core was legal after
/// each of its events.
#[tactic(auto, using(crate::proofs::Fronts::earlier_legal))]
pub fn earlier_fronts_are_legal()
    ensures { EarlierFrontsAreLegal }
{}

/// Declarations that were found sound over a front enter each legal front that begins with it and has none of their names: their
/// records need no second check.
#[tactic(auto, using(crate::proofs::Legality::sound_enters))]
pub fn sound_offers_enter()
    ensures { SoundOffersEnter }
{}
