// Mathematics only: lists made in the order of loops, and tables whose first places are filled. No function.
#![tactic(auto)]
