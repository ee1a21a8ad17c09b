//! What a crash may leave of a file while it is written or cut: definitions that the contracts of the journal's devices and those of files
//! that are written as a whole cite. So neither of the two stands on the other.
#![tactic(auto)]
