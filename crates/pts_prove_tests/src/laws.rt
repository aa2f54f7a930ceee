#[test]
fn the_laws_of_proof_commands_can_be_called() {
    pts_prove_cost::commands_have_one_outcome();
}
