// lines_reading_settings: the line of settings is read, choice by choice as its grammar has them.
// It may use terms, lines_text and lines_reading_law. It promises: the answer is the grammar's, for any bytes.

#![tactic(auto)]

pub mod settings;
