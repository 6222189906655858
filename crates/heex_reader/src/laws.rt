//! Laws of the definitions: each is the contract of a function that does nothing.
ghost use Rattle.heex_reader.specs.Reading.{RefusalsAreRight, TemplatesAreSpelled};

/// Exactly the texts that spell a template are read, as what they spell.
pub fn templates_are_spelled()
    ensures { TemplatesAreSpelled }
{}

/// Exactly for what is wrong with a text it is refused.
pub fn refusals_are_right()
    ensures { RefusalsAreRight }
{}
