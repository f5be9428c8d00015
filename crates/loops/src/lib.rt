// What a counting loop tests and fills: definitions and laws that the proofs of loops cite. No code.
#![tactic(auto)]
