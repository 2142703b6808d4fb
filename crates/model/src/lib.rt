#![tactic(auto)]
// No code: the store as lists (specs/Store), what makes it well-formed (specs/WellFormed), each operation on it (specs/Change, specs/Step),
// and the theorems that each is the plain table's (proofs/).
