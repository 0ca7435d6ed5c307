// The program's lines and what they mean, stated and proved over its input: no function of its own.

#![tactic(auto)]
