// Mathematics only: what a triangulation of a polygon is, which one is the answer, and that the recursion finds it. No function.
#![tactic(auto)]
