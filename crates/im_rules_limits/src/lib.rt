//! From a unit to the counts that may exceed a limit: the words of parameters, the bytes of a type, the bytes of all statics. Definitions alone.
#![tactic(auto)]
