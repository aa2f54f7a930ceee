// The laws of modules. Each is a function without a body that is never run: what it ensures is the law.

ghost use Rattle.pts_modules.specs.Laws.{ModulesHaveOneOrder};

/// Modules are put in order in one way at most, and there is one fault at most why they cannot be.
pub fn modules_have_one_order()
    ensures { ModulesHaveOneOrder }
{}
