// No code: line packets of one image, placed one after the other in any order.
#![tactic(auto)]
