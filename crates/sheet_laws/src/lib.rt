// An inner crate: laws of texts and sheets, in specs/, for the code that reads and writes and for the
// theorems. No code.
#![tactic(auto)]
