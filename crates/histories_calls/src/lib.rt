#![tactic(auto)]

// Demand 3 of the functions themselves, of the library's and of the exported ones those that open, edit and look up: theorems from what each of them promises,
// and no code. Statements: specs/Demands.antt, of the functions in specs/Functions.antt and specs/Exports.antt.
