// What holds of every grid that is answered: no time of it is past the last time, and its end is document
// 01's but after a NaN. No code. Document 02, request 3.
#![tactic(auto)]
