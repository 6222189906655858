//! Laws of the definitions: each is the contract of a function that does nothing.
ghost use Rattle.bundle_spelling.specs.Spelling.{BundlesAreSpelled};

/// The files of a folder are a bundle exactly where they spell it.
pub fn bundles_are_spelled()
    ensures { BundlesAreSpelled }
{}
