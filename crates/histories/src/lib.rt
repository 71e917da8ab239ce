#![tactic(auto)]

// What a history of calls leaves in a trial book: theorems about the definitions of the calls, a table of known histories, and no code. Statements:
// specs/Demand.antt, specs/Resumed.antt, specs/Offsets.antt, specs/KnownHistories.antt.
