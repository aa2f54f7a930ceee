#[test]
fn the_laws_of_queries_can_be_called() {
    pts_queries::infer_has_one_answer();
    pts_queries::reduce_has_one_answer();
    pts_queries::equal_has_one_answer();
}
