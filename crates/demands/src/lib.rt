// The inspectors' demands, stated and proved over the promises of the calls: no function of its own.

#![tactic(auto)]
