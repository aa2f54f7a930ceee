#[test]
fn the_law_of_declarations_can_be_called() {
    pts_declare::declarations_have_one_outcome();
}
