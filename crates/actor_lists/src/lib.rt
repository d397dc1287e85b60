//! What the two actors of a core leave, as lists: the local run of its units, and the fold of its records.
#![tactic(auto)]
