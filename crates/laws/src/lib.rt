// What is true of the definitions. No code.
//   cse         rounds, reciprocals, order and scopes on trees: values, names, counts, bounds
//   answer      answers as rows: what is laid out is read back
//   positions   the same extraction on words with numbers for names, place by place: the level between trees and code
//   switches    switches, their groups and columns by places
//   outernames  which names from outside an arm's answer reads
#![tactic(auto)]
