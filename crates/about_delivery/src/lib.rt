// No code: demand 3, what the session hands out of frames that a sender by the rules wrote and a link may have lost.
#![tactic(auto)]
