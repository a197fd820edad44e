// The demands for C: 16 group records and 64 stream records that start zeroed and that the three C calls alone write. No function lives here.
// specs/ states that such memory is a bridge, and what is promised of it; proofs/ proves it.
// What one C call does to what it is lent stands in the crate firmware, what is promised of a bridge in promises.
#![tactic(auto)]
