// An inner crate: laws of plans, in specs/, for the code that packs and plans and for the theorems. No code.
#![tactic(auto)]
