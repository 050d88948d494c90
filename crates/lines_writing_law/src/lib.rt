// lines_writing_law: the law of writing: the lines of reports and of the program, and what a writer leaves in the room.
// It has no code, and may use terms, tables, lines_text_law and lines_reading_law. It promises: settings and events that were written are
// read back, two reports never share a line, and the lines of settings, events and reports fit a line room.

#![tactic(auto)]
