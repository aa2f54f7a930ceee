// Parts of a term.

ghost use Rattle.std.specs.Prelude.{◌≡◌, ◌<◌, ◌+◌, ◌^◌};

/// A part of a term, as a term of the record, with the number of that term's binders under which it was found.
#[derive(Clone, Copy, Debug, PartialEq, Eq)]
pub struct Subterm {
    pub term: usize,
    pub binders: u64,
}

impl Subterm {
    // A part of this one under no further binder.
    pub(crate) fn part(self, term: usize) -> Subterm
        ensures { result ≡ record { term = term; binders = self.binders } }
    {
        Subterm { term, ..self }
    }

    // A part of this one under one further binder.
    pub(crate) fn body(self, term: usize) -> Subterm
        requires { self.binders < 2 ^ 63 }
        ensures { result ≡ record { term = term; binders = self.binders + 1 } }
    {
        Subterm {
            term,
            binders: self.binders + 1,
        }
    }
}
