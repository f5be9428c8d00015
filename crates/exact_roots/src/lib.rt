// What the square root and hypot are, and the laws of these definitions: nearest, and one value only. No code.
#![tactic(auto)]
