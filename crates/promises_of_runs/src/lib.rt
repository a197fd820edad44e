// The demands over longer histories: calls and runs against a line, in any order. No function lives here.
// specs/ states what is promised of them, one file for each subject; proofs/ proves it.
// What is promised of calls alone stands in the crate promises, of one run in line, of the queues in waiting.
#![tactic(auto)]
