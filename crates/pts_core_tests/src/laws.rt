#[test]
fn the_laws_of_cores_can_be_called() {
    pts_core::histories_grow();
    pts_core::fronts_stay();
    pts_core::earlier_fronts_are_legal();
    pts_core::sound_offers_enter();
}
