//! Laws of the definitions: each is the contract of a function that does nothing.
ghost use Rattle.template_reader.specs.Formula.{FormulasAreSpelled};
ghost use Rattle.template_reader.specs.Reading.{TemplatesAreSpelled};

/// Exactly the texts that are written as an expression which does not read the streams are read as it.
pub fn formulas_are_spelled()
    ensures { FormulasAreSpelled }
{}

/// Exactly the texts that spell a template are read, as what they spell.
pub fn templates_are_spelled()
    ensures { TemplatesAreSpelled }
{}
