// No code: what damage to a packet or a frame its check always shows.
#![tactic(auto)]
