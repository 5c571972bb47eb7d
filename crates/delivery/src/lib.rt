// What an operation knows at each of its answers, from the walks that it calls, all in `specs/`: this crate has no code.
#![tactic(auto)]
