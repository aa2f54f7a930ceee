// The laws of matching: functions without a body that are never run, and what one ensures is its law.

ghost use Rattle.pts_match.specs.Laws.{MatchesAreComplete, MatchesAreSound, MatchesAreUnique};

/// The match that is found allows exactly the terms that make the pattern the term.
pub fn matches_are_sound()
    ensures { MatchesAreSound }
{}

/// Where no match is found, no terms make the pattern the term.
pub fn matches_are_complete()
    ensures { MatchesAreComplete }
{}

/// A pattern and a term have one match at most, apart from printed names.
pub fn matches_are_unique()
    ensures { MatchesAreUnique }
{}
