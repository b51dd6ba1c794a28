// What readings hand to the write, over all that is read. There is no code here: specs/ has the statements, proofs/ their proofs.
#![tactic(auto)]
