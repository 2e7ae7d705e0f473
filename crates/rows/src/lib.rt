// Rows that were worked by hand, beyond document 01's table, in proofs/: they hold by computation. Those by which an edit of a definition is refused
// stand with the table in `rules`; here stand the others, so that no edit computes them again. There is no code.
#![tactic(auto)]
