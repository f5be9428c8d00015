// What holds of every step of a walk, demand 3, and of a whole walk, stage by stage: laws over the definition
// of a step. No code. Document 02, request 1, decides.
#![tactic(auto)]
