// The scope's starred examples: definitions and a theorem, no code.
#![tactic(auto)]
