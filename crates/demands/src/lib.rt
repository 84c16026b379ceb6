// What is asked of the calls on files, polygons and jobs, stated and proved over the definitions that their contracts cite; the worked cases; wrong programs.
// No function.
#![tactic(auto)]
