// An inner crate: laws of numbers, scans, tests and tables, in specs/, for all code and all theorems. No code.
#![tactic(auto)]
