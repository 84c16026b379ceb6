// The page of promises: what the users asked for, as statements about the calls, and one proof of them all. No function.
#![tactic(auto)]
