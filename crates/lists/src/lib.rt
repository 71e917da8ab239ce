#![tactic(auto)]

// Reading a list piece by piece, and writing at the front of a buffer: definitions (specs/) and their laws (proofs/). No code.
