// Sets of delays: the kernel times 1, 2, 4 .. in some order, and what holds of them whatever the order.
// Definitions (specs/) and lemmas (proofs/) only; the calls stand in the crate `keys`.
#![tactic(auto)]
