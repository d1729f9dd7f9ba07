// What no clause says: where there is memory, hits are grouped, drilldowns are read, and blocks of groups printed.
mod asked;
mod grouped;
mod printed;
