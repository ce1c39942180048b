// Laws of camera records, with no code: what settings that are put in leave of a record, and that a record which is not refused 0x21 stays
// so, whatever is asked of it. Document 01, "Profile and camera record".
// `batch` and `demands` stand on them.
#![tactic(auto)]
