// No code: lists of calls on the register, what each was answered, and what is claimed of the register after them, of two calls in either
// order, and of the pools that put the sum of lows over a limit (specs/).
#![tactic(auto)]
