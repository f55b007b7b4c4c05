// No code: that no stage of the chain reaches 2^64 trillionths inside the limits. The statement stands in `specs`.
#![tactic(auto)]
