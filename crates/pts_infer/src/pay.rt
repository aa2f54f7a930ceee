// Units that are paid.

ghost use Rattle.std.specs.Prelude.{false, suc, true, ◌≡◌};
ghost use Rattle.pts_rules.specs.Meter.{left};
ghost use Rattle.pts_infer.specs.Works.{Grown};

use crate::work::Work;

impl Work<'_> {
    // Pays one unit, if one is left.
    #[tactic(auto, using(pts_reduce::proofs::Paid::one_less, pts_reduce::proofs::Paid::none_left, pts_reduce::proofs::Paid::later_paid, pts_grow::proofs::Grow::keeps_refl))]
    pub(crate) fn pay(&mut self) -> bool
        ensures paid { result ≡ true → left self.old.meter.now ≡ suc (left self.new.meter.now) }
        ensures unpaid { result ≡ false → (left self.old.meter.now ≡ 0) × (left self.new.meter.now ≡ 0) }
        ensures record { self.new.proof.now ≡ self.old.proof.now }
        ensures grown { Grown self.old self.new }
    {
        let _spent = self.meter.spent();
        self.meter.pay(1)
    }

    // Spends what is left. What has no outcome costs more than each budget.
    #[tactic(auto, using(crate::proofs::Paid::drained, pts_grow::proofs::Grow::keeps_refl))]
    pub(crate) fn drain(&mut self)
        ensures spent { left self.new.meter.now ≡ 0 }
        ensures grown { Grown self.old self.new }
    {
        let units = self.meter.limit() - self.meter.spent();
        let _paid = self.meter.pay(units);
    }
}
