//! Laws of resolution, each the contract of a function that does nothing.
ghost use Rattle.uset_resolve.specs.Laws.{SourcesAreBounded};

/// Where each set of some tables ends, so does each source that a property resolves to over them.
pub fn bounded_sources()
    ensures { SourcesAreBounded }
{}
