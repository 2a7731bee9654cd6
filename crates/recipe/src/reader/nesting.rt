//! How deep a part stands.
ghost use Rattle.std.specs.Prelude.{◌≤◌};
ghost use Rattle.recipe.specs.Limits.{max_level};

/// How many parts that are not plain places stand around what is read next.
#[derive(Clone, Copy)]
pub(super) struct Nesting {
    pub(super) around: usize,
    ghost deep: { around ≤ max_level },
}
