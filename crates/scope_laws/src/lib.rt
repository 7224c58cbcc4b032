// A scope on words, by places, is `cse_scope` on trees with numbers for names. No code.
//   sound      what the rounds and what is held may be given to, and how large a scope's answer is
//   needs      what each statement reads
//   told       a scope's steps, told as rows
//   agree      the scope by places and the scope on trees give the same
//   measured, call   what the call of extract measures and answers
#![tactic(auto)]
