// No code: document 01's rules 1 to 5 on one channel, in specs/, which the session's step and demand 3 both cite.
#![tactic(auto)]
