// The command `replay`.

ghost use Rattle.std.specs.Prelude.{◌≡◌, ◌≢◌, IfOk};
ghost use Rattle.pts_ctx.specs.Front.{bare_front};
ghost use Rattle.pts_rules.specs.Derives.{Legal};
ghost use Rattle.pts_core.specs.Histories.{replay};
ghost use Rattle.pts_core.specs.Cores.{labelled};
ghost use Rattle.pts_io.specs.Counts.{Rose};
ghost use Rattle.pts_io.specs.declared.ended.Ended.{Ended};
ghost use Rattle.yarrow.specs.Runs.{Writes};
ghost use Rattle.yarrow.specs.Replays.{InputPrints, IsReplayRun};
ghost use Rattle.yarrow.specs.Plays.{IsStart, PlayEnded, EndPrints, all_new};

use crate::run::{Finish, LIMIT, ended, printed, without_memory};
use crate::system::{print_unready, system_named};
use pts_core::Core;
use pts_ctx::{Context, System};
use pts_io::{Ended, Library, Sink, Source};
use pts_names::List;
use pts_replay::{Replay, play_input};
use pts_session::{CoreTable, Request, Session, SessionPlayer, World};
use std::alloc::{AllocError, Global};
use std::mem::forget;

/// How many sessions there are.
const SESSIONS: u32 = 64;

/// Reads the system that the library's file of this name specifies, and then plays the source line by line: a line of a session
/// is added to the next round, `go` runs the round, `end` ends the run, and any other line is refused.
///
/// Where there is no system, one line says why, and nothing is taken from the source.
pub fn run_replay<S: Source, K: Sink, L: Library>(
    alloc: Global,
    name: &str,
    source: &mut S,
    sink: &mut K,
    library: &mut L,
) -> Finish
    ensures replay { IsReplayRun name.now (L.state library.old) (L.state library.new) (S.state source.old) (S.state source.new)
        (K.state sink.old) (K.state sink.new) result.status result.order (labelled result.context) }
    ensures files { (L.state library.new).files ≡ (L.state library.old).files }
{
    match system_named(alloc, name, library) {
        Ok(system) => replay_source(alloc, system, source, sink),
        Err(why) => print_unready(alloc, name, &why, sink),
    }
}

// Plays the source in a system.
fn replay_source<S: Source, K: Sink>(
    alloc: Global,
    system: System,
    source: &mut S,
    sink: &mut K,
) -> Finish
    ensures prints { Writes (λ status out. InputPrints system (S.state source.old) (S.state source.new) status out result.order (labelled result.context))
        (K.state sink.old) (K.state sink.new) result.status }
    ensures legal { Legal system (bare_front result.context.entries) }
{
    let world = World { system };
    let Ok(mut game) = new_game(alloc, &world) else {
        return without_memory(alloc);
    };
    let end = play_source(alloc, &world, &mut game, source, sink);
    let Replay { core, orders, .. } = game;
    finish(alloc, end, front_of(core), List::of(orders), sink)
}

// The play at its start: a core of which nothing was asked, and new sessions.
fn new_game(
    alloc: Global,
    world: &World,
) -> Result<Replay<SessionPlayer<CoreTable>, Request, CoreTable>, AllocError>
    ensures { IfOk result (λ g. IsStart world.now.system g) }
{
    let core = Core::new(alloc, world.system.copy(alloc)?);
    let sessions = new_sessions(alloc, world)?;
    let game = Replay::new(alloc, CoreTable { core }, sessions)?;
    Ok(game)
}

// As many new sessions as there may be.
fn new_sessions(alloc: Global, world: &World) -> Result<Vec<SessionPlayer<CoreTable>>, AllocError>
    ensures { IfOk result (λ v. v.items ≡ all_new world.now.system) }
{
    let mut sessions = Vec::with_capacity(alloc, SESSIONS as usize)?;
    for count in 0..SESSIONS {
        let _ = count;
        let session = Session::new(alloc, world)?;
        sessions.push(SessionPlayer::of(session))?;
    }
    Ok(sessions)
}

// Plays the source from the start.
fn play_source<S: Source, K: Sink>(
    alloc: Global,
    world: &World,
    game: &mut Replay<SessionPlayer<CoreTable>, Request, CoreTable>,
    source: &mut S,
    sink: &mut K,
) -> Ended
    requires { IsStart world.now.system game.old }
    ensures read_failed { result ≡ Ended.ReadFailed → Rose (S.state source.old).faults (S.state source.new).faults }
    ensures reads { result ≢ Ended.ReadFailed → (S.state source.new).faults ≡ (S.state source.old).faults }
    ensures write_failed { result ≡ Ended.WriteFailed → Rose (K.state sink.old).faults (K.state sink.new).faults }
    ensures writes { result ≢ Ended.WriteFailed → (K.state sink.new).faults ≡ (K.state sink.old).faults }
    ensures plays { PlayEnded world.now.system (S.state source.old) (S.state source.new) (K.state sink.old) (K.state sink.new)
        result game.new.orders.items game.new.core.core.history }
    ensures system { game.new.core.core.system ≡ world.now.system }
{
    play_input(alloc, world, game, source, sink, true, LIMIT as u32)
}

// The front of the core. The history is as long as the run, and the process ends soon: where a copy of the front can be had,
// the core is not given back piece by piece.
fn front_of(core: CoreTable) -> Context
    ensures front { labelled result ≡ replay core.core.history }
    ensures legal { Legal core.core.system (bare_front result.entries) }
{
    core.core.is_legal();
    let Ok(context) = core.core.context().copy() else {
        return core.core.into_context();
    };
    forget(core);
    context
}

// The end of a run whose play came to this end.
fn finish<K: Sink>(
    alloc: Global,
    end: Ended,
    context: Context,
    order: List<List<u32>>,
    sink: &mut K,
) -> Finish
    ensures prints { EndPrints end (K.state sink.old) (K.state sink.new) result.status }
    ensures order { result.order ≡ order }
    ensures entries { result.context.entries ≡ context.entries }
    ensures labels { result.context.labels ≡ context.labels }
{
    match end {
        Ended::Whole => with_order(ended(alloc, 0, context), order),
        Ended::ReadFailed => with_order(printed(alloc, sink, 4, b"read failed\n", context), order),
        Ended::TooMuch => {
            with_order(printed(alloc, sink, 8, b"input too long\n", context), order)
        }
        Ended::WriteFailed => with_order(ended(alloc, 5, context), order),
        Ended::NoMemory => with_order(ended(alloc, 7, context), order),
    }
}

// The same end with the orders of the rounds.
fn with_order(finish: Finish, order: List<List<u32>>) -> Finish
    ensures status { result.status ≡ finish.status }
    ensures order { result.order ≡ order }
    ensures entries { result.context.entries ≡ finish.context.entries }
    ensures labels { result.context.labels ≡ finish.context.labels }
{
    Finish { order, ..finish }
}
