// Rows of bits, and the order of a number's bits. Definitions and laws only.
#![tactic(auto)]
