//! Templates, and what they are linked to.

use crate::{Nodes, SlotBody};
use text_core::{Names, Seq, Text};

/// A template by its name.
#[derive(Debug, Drop)]
pub struct Template {
    pub name: Text,
    pub nodes: Nodes,
}

/// Templates in byte order of their names, no two of one name.
pub type Templates = Seq<Template>;

/// Slot bodies in order of their numbers.
pub type Bodies = Seq<SlotBody>;

/// A module of LiveComponents, and its template's name.
#[derive(Debug, Drop)]
pub struct Module {
    pub module: Text,
    pub template: Text,
}

/// The modules as declared, and the names of the views' templates: the k-th is that of view k.
#[derive(Debug, Drop)]
pub struct Modules {
    pub components: Seq<Module>,
    pub views: Names,
}

/// A linked bundle.
#[derive(Debug, Drop)]
pub struct Linked {
    pub templates: Templates,
    pub bodies: Bodies,
    pub modules: Modules,
}
