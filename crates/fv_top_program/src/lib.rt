//! What the file of a program is: a text, or a file of jobs whose programs run side by side; and what is played of it: its graph, its
//! channels and its controls. Promises that it is one program or refused for one thing (`one_program`, `one_file`), and what each job
//! of a rack answers (`jobs_answer`).
#![tactic(auto)]

mod jobs;
mod playable;
mod programs;
mod rack;
mod rack_laws;
mod text;
mod text_laws;

pub use jobs::arity_of;
pub use playable::{Playable, read_playable};
pub use programs::{Programs, Read, read_programs};
pub use rack_laws::{front_is_enough, jobs_answer, one_file, racks_are_jobs};
pub use text::{check_channels, read_program};
pub use text_laws::one_program;
