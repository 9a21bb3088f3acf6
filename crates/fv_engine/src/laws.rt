// The laws of engines.

ghost use Rattle.fv_engine.specs.Stands.{StandsAlike};

/// What an engine stands for depends on the controls before the end of its frames alone.
pub fn stands_alike()
    ensures { StandsAlike }
{}
