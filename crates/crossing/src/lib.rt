// That no two candidates of a rim cross, and what follows for its edges and rows, stated and proved over the definitions that the calls' contracts cite.
// No function.
#![tactic(auto)]
