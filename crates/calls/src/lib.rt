// The calls that edit an open plan, as definitions for contracts: see specs/Calls.antt.
#![tactic(auto)]
