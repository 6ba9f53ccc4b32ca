//! Lines, many lines and rows of documents of all types. The expected texts are worked by hand, by the conversion table of Extended JSON v2.

mod csv_rows;
mod fields;
mod indented;
mod lines;
