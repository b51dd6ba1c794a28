// No code: a row of a training table that passes claims no reading before the frame that told it arrived.
#![tactic(auto)]
