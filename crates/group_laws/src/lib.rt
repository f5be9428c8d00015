// What holds of every whole number in groups: each below 2^64 has one form and no other number has any, in as many groups as it needs. No code. Document 02,
// request 4.
#![tactic(auto)]
