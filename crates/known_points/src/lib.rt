#![tactic(auto)]

// The known points of document 01, as one table (specs/KnownPoints.antt) under one theorem about the definitions (proofs/Theorem.antt); those of request 01 of
// document 02, runs of stars, as another (specs/RunPoints.antt, proofs/RunTheorem.antt); those of its request 02, where a line came from, as a third
// (specs/OffsetPoints.antt, proofs/OffsetTheorem.antt); and how any table of known points is told (specs/Tables.antt) and proved (proofs/Computing.antt). No
// code.
