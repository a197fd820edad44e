// What the definitions give on concrete values: the ends of each range, each order of refusals, what is sound at its bounds,
// numbers that the P rows do not show; and values at which the premises of the theorems hold, a file for each subject, so
// that none is true for want of a case. No function lives here.
#![tactic(auto)]
