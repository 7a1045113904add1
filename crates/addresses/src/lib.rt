// The lists of a screenful, addresses and answers: definitions and laws alone. What fills them is `screen`.

#![tactic(auto)]
