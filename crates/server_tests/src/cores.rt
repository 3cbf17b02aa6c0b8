//! Ids that are in use, lists of events, workers on threads over a core's lock, and scripts over
//! devices that fail. `trials` plays most scripts.

mod acts;
mod books;
mod devices;
mod drawn;
mod expected;
mod gates;
mod hall;
mod lists;
mod long_lines;
mod losses;
mod pools;
mod refused_payload;
mod refused_script;
mod script_lines;
mod seals;
mod talkers;
mod tasks;
