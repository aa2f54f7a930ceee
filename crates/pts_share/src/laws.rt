// The law of ports to shared cores: a function without a body that is never run, which ensures it.

ghost use Rattle.pts_share.specs.Loans.{LoansDiffer};

/// Ports whose loans have the same number work on the same pass and on the same lock.
#[tactic(auto, using(crate::proofs::Loans::loans_differ))]
pub fn loans_differ()
    ensures { LoansDiffer }
{}
