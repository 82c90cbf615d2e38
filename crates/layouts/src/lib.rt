// Layouts of records in the paper's positions: definitions and laws, no code.
#![tactic(auto)]
