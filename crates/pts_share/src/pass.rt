// The passes to a shared core.

ghost use Rattle.std.specs.Prelude.{◌≡◌, length};
ghost use Rattle.pts_share.specs.Passes.{IsPass, history_of};

use crate::guarded::Guarded;
use pts_lock::LockSeat;

/// That with which a session asks a shared core. It may be sent to another thread. Its `owner` is the number of the session.
pub type Pass = LockSeat<Guarded>;

/// The number of the session.
pub fn session(pass: &Pass) -> u32
    ensures { result ≡ pass.now.owner }
{
    pass.owner
}

/// How many events of the core the session has seen.
pub fn seen(pass: &Pass) -> u64
    requires pass { IsPass pass.now }
    ensures { result ≡ length (history_of pass.now) }
{
    pass.count - 1
}
