#[test]
fn the_laws_of_images_can_be_called() {
    pts_image::renamed_records_are_valid();
    pts_image::renamed_records_conclude();
    pts_image::fronts_are_renamed();
    pts_image::images_are_valid();
    pts_image::images_conclude();
    pts_image::substituted_records_are_valid();
    pts_image::substituted_records_conclude();
    pts_image::grafts_are_valid();
    pts_image::grafts_say_the_same();
}

#[test]
fn the_laws_of_interpretations_can_be_called() {
    pts_image::judgements_are_fixed();
    pts_image::entries_are_fixed();
    pts_image::bases_are_interpreted();
    pts_image::entries_are_interpreted();
    pts_image::assumptions_are_interpreted();
    pts_image::arguments_are_interpreted();
    pts_image::instances_follow();
    pts_image::renamed_follow();
    pts_image::bases_are_renamed();
}
