// What "nearest" means, that rounding gives it, and that one value only is nearest: laws over any format. No code.
#![tactic(auto)]
