// Which texts may be taken: the objects of a text, judged by the dictionary, by whose text it is, and by what is held.
#![tactic(auto)]

pub mod alone;
pub mod fault;
pub mod held;
pub mod kind;
pub mod text;
pub mod worked;
