// Which speeds pass, and what the answer is among them: demand 3 as laws over the definitions that recovery is proved equal to. No code.
#![tactic(auto)]
