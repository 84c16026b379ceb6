// What the programs share: the rim file on standard input.
#![tactic(auto)]

pub mod input;
