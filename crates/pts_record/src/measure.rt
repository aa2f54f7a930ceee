// How large terms are.

ghost use Rattle.std.specs.Prelude.{◌≡◌, ◌+◌, ◌-◌, ◌<◌, ◌≤◌, ◌^◌, max, pred};

/// How large a term is: its depth, its tree size, and the least number above its free indices.
#[derive(Clone, Copy, Debug, PartialEq, Eq)]
pub struct Measure {
    pub depth: u32,
    pub size: u32,
    pub free: u64,
}

impl Measure {
    // A sort, a constant or an index.
    pub(crate) fn leaf(free: u64) -> Measure
        ensures { result ≡ record { depth = 1; size = 1; free = free } }
    {
        Measure {
            depth: 1,
            size: 1,
            free,
        }
    }

    pub(crate) fn of_application(function: Measure, argument: Measure) -> Measure
        requires function { (function.depth ≤ 2000) × (function.size ≤ 1000000) }
        requires argument { (argument.depth ≤ 2000) × (argument.size ≤ 1000000) }
        ensures { result ≡ record { depth = max function.depth argument.depth + 1; size = function.size + argument.size + 1; free = max function.free argument.free } }
    {
        Measure {
            depth: function.depth.max(argument.depth) + 1,
            size: function.size + argument.size + 1,
            free: function.free.max(argument.free),
        }
    }

    // An abstraction or a product.
    pub(crate) fn of_binder(domain: Measure, body: Measure) -> Measure
        requires domain { (domain.depth ≤ 2000) × (domain.size ≤ 1000000) }
        requires body { (body.depth ≤ 2000) × (body.size ≤ 1000000) }
        ensures { result ≡ record { depth = max domain.depth body.depth + 1; size = domain.size + body.size + 1; free = max domain.free (body.free - 1) } }
    {
        Measure {
            depth: domain.depth.max(body.depth) + 1,
            size: domain.size + body.size + 1,
            free: domain.free.max(body.free.saturating_sub(1)),
        }
    }

    // A local definition.
    pub(crate) fn of_definition(definition: Measure, ty: Measure, body: Measure) -> Measure
        requires definition { (definition.depth ≤ 2000) × (definition.size ≤ 1000000) }
        requires ty { (ty.depth ≤ 2000) × (ty.size ≤ 1000000) }
        requires body { (body.depth ≤ 2000) × (body.size ≤ 1000000) }
        ensures { result ≡ record { depth = max (max definition.depth ty.depth) body.depth + 1; size = definition.size + ty.size + body.size + 1; free = max (max definition.free ty.free) (body.free - 1) } }
    {
        Measure {
            depth: definition.depth.max(ty.depth).max(body.depth) + 1,
            size: definition.size + ty.size + body.size + 1,
            free: definition
                .free
                .max(ty.free)
                .max(body.free.saturating_sub(1)),
        }
    }
}
