//! Who runs the goals of a query.

ghost use Rattle.std.specs.Prelude.{◌<◌, ◌≤◌};

/// How many workers run goals, the one that starts them included; what starts the others; what each passes as it begins and ends a goal.
#[derive(Drop)]
pub struct Crew<'a, R, G> {
    pub rt: &'a R,
    pub gate: &'a G,
    pub workers: u32,
    pub ghost some: { 0 < workers },
    pub ghost few: { workers ≤ 32 },
}
