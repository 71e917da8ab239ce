#![tactic(auto)]

// The contract of each public function leaves one answer and one end state: laws alone, and no code. What is said is specs/Unique.antt.
