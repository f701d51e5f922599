//! From a machine without power failures to one with them: definitions and lemmas on any deterministic machine.
#![tactic(auto)]
