// What a batch is given and what it answers.

ghost use Rattle.std.specs.Prelude.{◌≡◌};

use pts_ctx::{Context, System};
use pts_names::{List, Text};
use pts_record::Declaration;

/// What modules are checked in.
#[derive(Drop)]
pub struct World {
    pub system: System,
}

/// What is answered to a module: the lines to print; the declarations that entered, in order, with their records; the
/// context that they make; the units that were spent; and whether the module was refused.
#[derive(Drop)]
pub struct Batch {
    pub lines: List<Text>,
    pub declarations: List<Declaration>,
    pub context: Context,
    pub units: u64,
    pub refused: bool,
}
