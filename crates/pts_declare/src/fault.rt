// Why what is stated is refused.

ghost use Rattle.std.specs.Prelude.{◌≡◌};

use pts_infer::{InferFault, Part};

/// Why what is stated does not become a declaration. `Memory` alone says that memory ran out.
#[derive(Debug, Drop)]
pub enum DeclareFault {
    /// The inference of this part has this fault.
    Infer(Part, InferFault),
    /// There is no memory.
    Memory,
}
