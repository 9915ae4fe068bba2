// How a round is searched: definitions and laws, no code.
#![tactic(auto)]
