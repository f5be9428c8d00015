// What holds of every section of a cut file that is found, and of every refusal. No code. Document 02, request 4.
#![tactic(auto)]
