// What no clause says: where there is memory, columns are found a block is printed, and rows stand after a text.
mod appended;
mod asked;
mod printed;
