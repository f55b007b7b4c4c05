// No code: how far apart the ends of q are, and low and high as printed, by method and face.
#![tactic(auto)]
