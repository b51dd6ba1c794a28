// Document 01's marked cases, as one table about the definitions that the contracts cite. No code.
#![tactic(auto)]
