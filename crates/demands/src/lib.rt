// The theorems: what the customer demands, about the calls as they answer, in specs/. No code, and no code
// uses it.
#![tactic(auto)]
