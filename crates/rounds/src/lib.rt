#![tactic(auto)]

// What the release desk's lines leave, one behind the other, and that none of them lacks room: definitions, a theorem about them, and no code. Statements:
// specs/Rounds.antt.
