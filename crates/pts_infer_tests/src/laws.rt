use pts_rules::{Meter, Why};
use pts_samples::prints;

#[test]
fn the_laws_can_be_called() {
    pts_rules::valid_records_are_sound();
    pts_rules::conclusions_are_legal();
    pts_rules::judgements_are_thinned();
    pts_rules::valid_records_are_thinned();
    pts_rules::prefixes_are_legal();
    pts_rules::longer_fronts_have_entries();
    pts_rules::judgements_are_scoped();
    pts_rules::head_steps_are_steps();
    pts_reduce_cost::reduction_has_one_outcome();
    pts_reduce_cost::tests_have_one_outcome();
    pts_reduce_cost::reduction_is_exact();
    pts_reduce_cost::tests_are_exact();
    pts_reduce_cost::forms_are_convertible();
    pts_reduce_cost::tests_are_sound();
}

#[test]
fn the_laws_of_inference_can_be_called() {
    pts_infer_cost::inference_has_one_outcome();
    pts_infer_cost::sorts_have_one_outcome();
    pts_infer_cost::sort_tests_have_one_outcome();
    pts_infer_cost::fits_have_one_outcome();
    pts_infer_cost::inference_is_exact();
    pts_infer_cost::sorts_are_exact();
    pts_infer_cost::sort_tests_are_exact();
    pts_infer_cost::fits_are_exact();
    pts_infer_cost::inference_is_sound();
    pts_infer_cost::sorts_are_sound();
    pts_infer_cost::sort_tests_are_sound();
    pts_infer_cost::fits_are_sound();
    pts_infer_cost::flaws_are_scoped();
    pts_infer_cost::flaws_of_sorts_are_scoped();
    pts_infer_cost::flaws_of_sort_tests_are_scoped();
    pts_infer_cost::flaws_of_fits_are_scoped();
}

fn pays(meter: &mut Meter, units: u64, spent: u64) -> bool {
    meter.pay(units) && meter.spent() == spent
}

#[test]
fn a_meter_pays_what_is_left_and_no_more(rt: HostRuntime) {
    let mut meter = Meter::new(3);
    assert!(rt; pays(&mut meter, 2, 2));
    assert!(rt; !pays(&mut meter, 2, 2));
    assert!(rt; meter.spent() == 3 && meter.limit() == 3);
}

#[test]
fn the_conditions_that_nodes_break_are_printed(rt: HostRuntime) {
    let texts = [
        (Why::Kind(0), "Kind 0"),
        (Why::Place(1), "Place 1"),
        (Why::Subject, "Subject"),
        (Why::Claim, "Claim"),
        (Why::Premise(2), "Premise 2"),
        (Why::SortOf(3), "SortOf 3"),
        (Why::NoAxiom, "NoAxiom"),
        (Why::NoRule, "NoRule"),
        (Why::NoEntry, "NoEntry"),
        (Why::NoStep, "NoStep"),
        (Why::Conclusion, "Conclusion"),
    ];
    for (why, text) in texts {
        assert!(rt; prints(rt.alloc(), &why, text), "{text}");
    }
}
