// What a table that the program says passes claims, of the input's own frames: statements alone.
#![tactic(auto)]
