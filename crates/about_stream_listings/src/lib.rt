// That what is listed of a stream is the lines of what it holds: no code.
#![tactic(auto)]
