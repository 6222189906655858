//! The reader of HEEx templates.
#![tactic(auto)]

mod arrow;
mod blank;
mod close;
mod content;
mod cursor;
mod fault;
mod frame;
mod head;
mod laws;
mod machine;
mod name;
mod piece;
mod pile;
mod reader;
mod refusal;
mod said;
mod sign;
mod signs;
mod state;
mod tag;
mod tag_node;
mod value;
mod white;

pub use fault::{TemplateFault, TemplateKind};
pub use laws::{refusals_are_right, templates_are_spelled};
pub use reader::{read_nodes, read_template};
