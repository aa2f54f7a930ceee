// Units that are paid.

ghost use Rattle.std.specs.Prelude.{◌≡◌, suc, OnOk, IfErr};
ghost use Rattle.pts_rules.specs.Meter.{left};
ghost use Rattle.pts_reduce.specs.declared.fault.Fault.TheVariants.{Spent};
ghost use Rattle.pts_reduce.specs.Given.{Later};

use crate::fault::Fault;
use pts_rules::Meter;

/// Pays one unit.
#[tactic(auto, using(crate::proofs::Paid::one_less, crate::proofs::Paid::none_left))]
pub(crate) fn pay(meter: &mut Meter) -> Result<(), Fault>
    ensures paid { OnOk result (left meter.old ≡ suc (left meter.new)) }
    ensures unpaid { IfErr result (λ e. (e ≡ Spent) × (left meter.old ≡ 0) × (left meter.new ≡ 0)) }
    ensures later { Later meter.old meter.new }
{
    let _spent = meter.spent();
    if meter.pay(1) {
        Ok(())
    } else {
        Err(Fault::Spent)
    }
}
