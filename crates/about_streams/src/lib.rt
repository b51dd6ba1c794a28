// No code: demand 3 holds for frames that arrive by a stream, which is read in any pieces.
#![tactic(auto)]
