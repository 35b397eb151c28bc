// Codecs, their combinators and their laws: definitions only, in specs/ and proofs/.

#![tactic(auto)]
