// feed_prints: what is said goes to the output room as lines: the records of an event, a refused event, a bad line, the end of the input.
// It may use feed_law, records and lines_writing_reports. It promises: the bytes are those of feed_law, and no byte past them is touched.

#![tactic(auto)]

pub mod printing;
