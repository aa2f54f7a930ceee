#[test]
fn the_laws_of_open_proofs_are_called() {
    pts_goals::fills_are_undone();
    pts_goals::steps_make_one_term();
}
