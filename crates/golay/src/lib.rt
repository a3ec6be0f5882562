// Complementary pairs as mathematics: the kernels, a stage over any pair, and that the laws of a pair hold of them.
// Definitions (specs/) and lemmas (proofs/) only; the calls stand in the crate `pairs`.
#![tactic(auto)]
