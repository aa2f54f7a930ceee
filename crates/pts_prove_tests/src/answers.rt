// What commands answer, in words.

use pts_infer::Part;
use pts_prove::ProveFault;

/// What a command came to, with the number in it.
pub fn seen(answer: &Result<(), ProveFault>) -> (&'static str, usize) {
    match answer {
        Ok(()) => ("refined", 0),
        Err(fault) => refused(fault),
    }
}

fn refused(fault: &ProveFault) -> (&'static str, usize) {
    match fault {
        ProveFault::NoGoal => ("no goal", 0),
        ProveFault::Taken(_, place) => ("taken", *place),
        ProveFault::NotProduct(_) => ("no product", 0),
        ProveFault::NoMatch(products) => ("no match", *products),
        ProveFault::Undetermined(argument) => ("undetermined", *argument),
        ProveFault::NotThere(_) => ("not there", 0),
        ProveFault::NoBody(_) => ("no body", 0),
        ProveFault::Flaw(part, _) => (flawed(*part), 0),
        ProveFault::Spent => ("spent", 0),
        ProveFault::Deep => ("deep", 0),
        ProveFault::Memory => ("memory", 0),
    }
}

fn flawed(part: Part) -> &'static str {
    match part {
        Part::Whole => "a flaw of the term",
        Part::Ty => "a flaw of the type",
        Part::Goal => "a flaw of the goal",
    }
}
