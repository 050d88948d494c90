// lines_text: the bytes of lines: words and numbers are read at a place of the caller's bytes, forms and numbers are put into a lent room.
// It may use terms, tables and lines_text_law. It promises: each piece is read as its definition says; a form with its numbers is put as its
// definition says, and all else in the room stays as it was.

#![tactic(auto)]

pub mod pieces;
pub mod room;
