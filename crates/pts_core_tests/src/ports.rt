// A core that is asked by itself, and through a port.

ghost use Rattle.pts_core.specs.Cores.{MaySubmit};

use crate::makers::{LOOKING, empty, unlabelled};
use crate::replies::words;
use pts_core::{Answer, Core, CorePort, Examined, Port, PortFault};
use std::alloc::Global;

// The session that asks through a port.
const PORTED: u32 = 3;

/// A way to a core.
#[derive(Clone, Copy)]
pub enum Way {
    Itself,
    Port,
}

// Whether an answer has this number and reply, and hands on a front of so many entries.
fn is_answer(
    alloc: Global,
    answer: &Result<Answer, PortFault>,
    number: u64,
    reply: &str,
    entries: Option<usize>,
) -> bool {
    let Ok(answer) = answer else {
        return false;
    };
    let Ok(words) = words(alloc, &answer.receipt.reply) else {
        return false;
    };
    let handed_on = match &answer.front {
        Some(front) => Some(front.len()),
        None => None,
    };
    answer.receipt.number == number && words.as_str() == reply && handed_on == entries
}

// Asks through a port for a submission.
fn ask(alloc: Global, core: &mut Core, examined: Examined) -> Result<Answer, PortFault>
    requires { MaySubmit examined core.old }
{
    core.is_legal();
    let mut port = CorePort {
        core,
        session: PORTED,
    };
    port.submit(alloc, examined)
}

fn ask_for_look(alloc: Global, core: &mut Core) -> Result<Answer, PortFault> {
    let mut port = CorePort {
        core,
        session: PORTED,
    };
    port.is_legal();
    port.look(alloc)
}

/// The answer to an offer of these names.
pub fn answer(
    alloc: Global,
    core: &mut Core,
    names: &str,
    way: Way,
) -> Option<Result<Answer, PortFault>> {
    let examined = unlabelled(alloc, core, names)?;
    Some(match way {
        Way::Itself => core.answer_submit(PORTED, examined),
        Way::Port => ask(alloc, core, examined),
    })
}

fn is_given(
    alloc: Global,
    answer: &Option<Result<Answer, PortFault>>,
    number: u64,
    reply: &str,
    entries: Option<usize>,
) -> bool {
    match answer {
        Some(answer) => is_answer(alloc, answer, number, reply, entries),
        None => false,
    }
}

// Whether an offer of these names is answered so.
fn answers(
    alloc: Global,
    core: &mut Core,
    names: &str,
    way: Way,
    number: u64,
    reply: &str,
    entries: Option<usize>,
) -> bool {
    is_given(
        alloc,
        &answer(alloc, core, names, way),
        number,
        reply,
        entries,
    )
}

/// Whether a look is answered so.
pub fn look_answers(
    alloc: Global,
    core: &mut Core,
    number: u64,
    reply: &str,
    entries: Option<usize>,
) -> bool {
    is_answer(alloc, &core.answer_look(LOOKING), number, reply, entries)
}

fn port_answers(
    alloc: Global,
    core: &mut Core,
    number: u64,
    reply: &str,
    entries: Option<usize>,
) -> bool {
    is_answer(alloc, &ask_for_look(alloc, core), number, reply, entries)
}

fn is_answered(alloc: Global) -> Option<bool> {
    let mut core = empty(alloc)?;
    Some(
        answers(
            alloc,
            &mut core,
            "A",
            Way::Itself,
            0,
            "committed 0 1",
            Some(1),
        ) && answers(
            alloc,
            &mut core,
            "B C",
            Way::Port,
            1,
            "committed 1 3",
            Some(3),
        ) && answers(alloc, &mut core, "D C", Way::Port, 2, "clash C 2", None)
            && look_answers(alloc, &mut core, 3, "seen 3", Some(3))
            && port_answers(alloc, &mut core, 4, "seen 3", Some(3)),
    )
}

#[test]
fn an_answer_has_its_number_and_hands_on_the_front_where_that_may_be_new(rt: HostRuntime) {
    assert!(rt; is_answered(rt.alloc()) == Some(true));
}
